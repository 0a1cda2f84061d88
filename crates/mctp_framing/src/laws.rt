//! Laws of the definitions, each stated as the contract of an empty function. Call one where a proof needs it.
ghost use Rattle.std.specs.Prelude.{◌≡◌, ◌≤◌, ◌<◌, ◌+◌, [], ◌∷◌, ◌++◌, true, ◌==◌, if◌then◌else◌, ℕ, List, Ok, All, length, map, drop, filter, slice_get, Some};
ghost use Rattle.std.specs.List.{concat};
ghost use Rattle.mctp_framing.specs.Packet.{PacketFields, fields_of, parsed, spelled_packet};
ghost use Rattle.mctp_framing.specs.CutAndGather.{IsGatherable};
ghost use Rattle.mctp_framing.specs.Gathering.Gathered.{More, Whole};
ghost use Rattle.mctp_framing.specs.Gathering.{Receiver, gathered, is_ours};
ghost use Rattle.mctp_framing.specs.Cutting.{RouteFields, nth_packet, only_packet, packet_count, packets_before, packets_of};

/// A packet as it is written is read back as its fields.
pub fn written_is_read()
    ensures { (p : PacketFields) → p.sequence < 4 → p.tag < 8 → parsed (spelled_packet p) ≡ Ok p }
{}

/// The payloads of a body's packets, joined in order, are the body.
pub fn payloads_are_the_body()
    ensures { (route : RouteFields) (unit : ℕ) (body : List ℕ) → 0 < unit
        → concat (map (drop 4) (packets_of route unit body)) ≡ body }
{}

/// Each packet of a body has at most four bytes more than a unit, and packet `k` is the one that is defined as such.
pub fn packets_fit()
    ensures count { (route : RouteFields) (unit : ℕ) (body : List ℕ)
        → length (packets_of route unit body) ≡ packet_count unit body }
    ensures sizes { (route : RouteFields) (unit : ℕ) (body : List ℕ)
        → All (λ packet. length packet ≤ unit + 4) (packets_of route unit body) }
{}

/// A body of at most a unit is one packet, with both SOM and EOM.
pub fn short_body_is_one_packet()
    ensures { (route : RouteFields) (unit : ℕ) (body : List ℕ) → 0 < length body
        → length body ≤ unit → packets_of route unit body
        ≡ spelled_packet (only_packet route body) ∷ [] }
{}

/// A packet with SOM is answered alike whatever packets came before, and after one that is for the receiver each packet
/// is answered as if none had come before that one.
pub fn first_packet_begins_anew()
    ensures answer { (r : Receiver) (earlier : List PacketFields) (p : PacketFields)
        → p.start ≡ true → gathered r earlier p ≡ gathered r [] p }
    ensures later { (r : Receiver) (later earlier : List PacketFields) (p q : PacketFields)
        → is_ours r p ≡ true → p.start ≡ true
        → gathered r (later ++ p ∷ earlier) q ≡ gathered r (later ++ p ∷ []) q }
{}

/// What a packet leads to is the same with the packets that are not the receiver's left out of those given before it.
/// So it goes by the receiver's packets alone.
pub fn others_count_in_nothing()
    ensures left_out { (r : Receiver) (earlier : List PacketFields) (p : PacketFields)
        → gathered r (filter (is_ours r) earlier) p ≡ gathered r earlier p }
    ensures alike { (r : Receiver) (given others : List PacketFields) (p : PacketFields)
        → filter (is_ours r) given ≡ filter (is_ours r) others
        → gathered r given p ≡ gathered r others p }
{}

/// The packets of a body, given in order to the receiver that they are for, whatever packets came before:
/// each but the last is answered that more is awaited, and the last completes exactly that body.
pub fn cut_is_gathered()
    ensures { (r : Receiver) (route : RouteFields) (unit : ℕ) (body : List ℕ)
        (earlier : List PacketFields) (k : ℕ) → IsGatherable r route unit body
        → k < packet_count unit body
        → gathered r (packets_before route unit body k ++ earlier) (nth_packet route unit body k)
        ≡ (if k + 1 == packet_count unit body then Whole route body else More) }
{}
