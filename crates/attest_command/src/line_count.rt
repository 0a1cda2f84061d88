ghost use Rattle.std.specs.Prelude.{◌≡◌, ◌<◌, ◌≤◌, ◌^◌, length};
ghost use Rattle.script_text.specs.Lines.{lines_of};

/// How many lines a text has: a line feed ends each, which the last one may lack.
pub(crate) fn count_of_lines(text: &[u8]) -> u32
    requires { length text.now < 2 ^ 32 }
    ensures count { result ≡ length (lines_of text.now) }
    ensures few { result ≤ length text.now }
{
    let mut count = 0u32;
    let mut begins = true;
    for byte in text {
        if begins {
            count += 1;
        }
        begins = *byte == b'\n';
    }
    count
}
