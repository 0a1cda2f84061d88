//! Laws of the definitions, each stated as the contract of an empty function. Call one where a proof needs it.
ghost use Rattle.std.specs.Prelude.{◌≡◌, ◌==◌, ◌≤◌, ◌<◌, ◌+◌, ◌-◌, ◌∷◌, ◌++◌, [], if◌then◌else◌, ℕ, List, None, length, map};
ghost use Rattle.std.specs.List.{concat};
ghost use Rattle.spdm_grammar.specs.Message.{ChunkMessage};
ghost use Rattle.chunking.specs.Collecting.{accepted_of, accepted_with, broken_rule, collected, under_way};
ghost use Rattle.chunking.specs.Collecting.Collection.{More, Whole};
ghost use Rattle.chunking.specs.Cutting.{IsCollectable, chunk_count, chunks_before, chunks_of, nth_chunk};

/// The bytes of a message's chunks, joined in order, are the message.
pub fn chunks_are_the_message()
    ensures { (transfer handle : ℕ) (message : List ℕ) → 12 < transfer
        → concat (map (λ c. c.chunk) (chunks_of transfer handle message)) ≡ message }
{}

/// Each chunk but the last has the transfer size less 16 bytes as the first one, and less 12 as another.
pub fn chunk_sizes()
    ensures { (transfer handle : ℕ) (message : List ℕ) (k : ℕ) → 16 ≤ transfer
        → k + 1 < chunk_count transfer message
        → length (nth_chunk transfer handle message k).chunk
        ≡ (if k == 0 then transfer - 16 else transfer - 12) }
{}

/// A chunk of number 0 is answered alike whatever chunks were accepted before.
pub fn first_chunk_begins_anew()
    ensures { (max : ℕ) (accepted : List ChunkMessage) (c : ChunkMessage) → c.number ≡ 0
        → collected max accepted c ≡ collected max [] c }
{}

/// The chunks of a message, taken in order whatever chunks were accepted before: each but the last is answered that
/// more is awaited, the last completes exactly that message, and all are accepted.
pub fn cut_is_collected()
    ensures answer { (max transfer handle : ℕ) (message : List ℕ) (earlier : List ChunkMessage)
        (k : ℕ) → IsCollectable max transfer message → k < chunk_count transfer message
        → collected max (chunks_before transfer handle message k ++ earlier)
        (nth_chunk transfer handle message k)
        ≡ (if k + 1 == chunk_count transfer message then Whole message else More) }
    ensures accepted { (max transfer handle : ℕ) (message : List ℕ) (earlier : List ChunkMessage)
        (k : ℕ) → IsCollectable max transfer message → k < chunk_count transfer message
        → accepted_with max (chunks_before transfer handle message k ++ earlier)
        (nth_chunk transfer handle message k)
        ≡ chunks_before transfer handle message (k + 1) ++ earlier }
{}

/// Whatever chunks are given, an accepted one has a number below 158, and it counts the chunks of its message before
/// it. So at most 158 chunks make a message.
pub fn few_chunks()
    ensures few { (max : ℕ) (given : List ChunkMessage) (c : ChunkMessage)
        → broken_rule max (under_way (accepted_of max given)) c ≡ None → c.number < 158 }
    ensures counted { (max : ℕ) (given : List ChunkMessage) (c : ChunkMessage)
        → broken_rule max (under_way (accepted_of max given)) c ≡ None
        → c.number ≡ (if c.number == 0 then 0 else length (under_way (accepted_of max given))) }
{}
