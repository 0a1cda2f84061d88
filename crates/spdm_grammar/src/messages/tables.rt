ghost use Rattle.std.specs.Prelude.{◌≡◌, ◌↔◌, IsTrue};
ghost use Rattle.spdm_grammar.specs.Layout.{AreTables};
ghost use Rattle.spdm_grammar.specs.Tables.{first_table};

// The length of the algorithm structure at the front of the bytes, if one stands there.
fn first_table_len(bytes: &[u8]) -> Option<usize>
    ensures { result ≡ first_table bytes.now }
{
    if bytes.len() < 4 || bytes[1] / 16 != 2 {
        return None;
    }
    let len = 4 + 4 * usize::from(bytes[1] % 16);
    if bytes.len() < len { None } else { Some(len) }
}

// Whether the bytes are so many algorithm structures, one after the other.
pub fn are_tables(count: u8, bytes: &[u8]) -> bool
    ensures { IsTrue result ↔ AreTables count bytes.now }
{
    let mut rest = bytes;
    for i in 0..count {
        match first_table_len(rest) {
            None => return false,
            Some(len) => {
                let (_, others) = rest.split_at(len);
                rest = others;
            }
        }
    }
    rest.is_empty()
}
