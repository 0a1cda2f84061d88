ghost use Rattle.std.specs.Prelude.{◌≡◌, ◌≤◌, [], Some, IfSome, map, string_bytes, slice_index_or};
ghost use Rattle.spdm_bench.specs.Words.{kind_named};

/// What is done to each message.
#[derive(Clone, Copy, Debug, PartialEq, Eq)]
pub enum Kind {
    /// It is sealed by AES-128-GCM.
    Gcm,
    /// It is authenticated by HMAC over SHA-256.
    Hmac,
    /// A session sends it as application data, and it is sent back.
    Session,
    /// The records of that are sealed and opened alone.
    Records,
    /// Requesters send it in turn as application data to one responder, over packets.
    Ends,
}

fn kind_named(word: &str) -> Option<Kind>
    ensures { result ≡ kind_named word.now }
{
    match word {
        "gcm" => Some(Kind::Gcm),
        "hmac" => Some(Kind::Hmac),
        "session" => Some(Kind::Session),
        "records" => Some(Kind::Records),
        "ends" => Some(Kind::Ends),
        _ => None,
    }
}

/// The work that the words of the program ask for.
#[derive(Drop)]
pub struct Work {
    /// What is done to each message.
    pub kind: Kind,
    /// How many bytes a message has; of `ends`, how many requesters there are.
    pub size: usize,
    /// The number of messages.
    pub count: u64,
    ghost small: { size ≤ 65535 },
}

impl Work {
    /// The work of the words `KIND SIZE COUNT`, where the kind is `gcm`, `hmac`, `session`,
    /// `records` or `ends`, with a size of at most 65,535 and both numbers in decimal, and `None` for others.
    pub fn of(words: &[String]) -> Option<Work>
        ensures kind { IfSome result (λ work. kind_named (slice_index_or
            (map string_bytes words.now) 0 []) ≡ Some work.kind) }
    {
        let [kind, size, count] = words else {
            return None;
        };
        Some(Work {
            kind: kind_named(kind.as_str())?,
            size: size.parse::<u16>().ok()?.into(),
            count: count.parse().ok()?,
        })
    }
}
