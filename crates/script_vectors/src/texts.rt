// Texts, each with the answer of another implementation, written from the description of the formats alone:
// the form (L lives, D command, O policy from line 5 on), what stands in front (the lines up to `end` without or with
// it), the text with `;` for line feeds, and `ok` or the bad line and its fault. `@N@` is N bytes of zeros in hexadecimal
// digits, $ the line of a responder and & that of a requester. Texts of scripts, captures and configurations are cases of
// `spdm_cases`.
pub const TEXTS: &str = "\
L|E|cycle;|ok
L|E|cycle x;|5 Words
L|E|cycle;q1 connect;cycle;|ok
L|E|q1 connect;|ok
L|E|cycles;|5 Unknown
L|E|packet 1 00;|5 Unknown
L|E| cycle;|5 Unknown
L|C|cycle;end;|4 Order
L|N|end;|3 Incomplete
D|0|q1 connect|ok
D|0|q2 connect|1 NoSuchEnd
D|0|q1 open 0|ok
D|0|q1 open 7|1 Number
D|0|show|1 Unknown
D|0||1 Unknown
D|0|#|1 Unknown
D|0|q1|1 Unknown
D|0|pump 1|1 Unknown
D|0|reply q1 00|1 Unknown
D|0|q1 measure - 3|ok
D|0|q1 send 1 zz|1 Hex
D|0|end|1 Unknown
D|0|cycle|1 Unknown
O|0|go;|ok
O|0|go;x;|ok
O|0||5 Incomplete
O|0|expct 1;|5 Unknown
O|0|expect 1 0 00;go;|ok
O|0|expect 0 0 00;go;|5 Number
O|0|expect 255 0 00;go;|5 Number
O|0|expect 254 255 -;go;|ok
O|0|expect 1 256 00;go;|5 Number
O|0|expect 1 0 0;go;|5 Hex
O|0|expect 1 0;go;|5 Words
O|0|skip 1;go;|ok
O|0|skip 1;skip 1;go;|6 Twice
O|0|skip 1;expect 1 0 00;go;|6 Twice
O|0|skip 1;|6 Incomplete
O|0|skip 255;go;|5 Number
O|0|skip;go;|5 Words
O|0|go x;|5 Words
O|0|#;;go;|ok
O|0| go;|5 Unknown
O|0|skip 1 1;go;|5 Words
O|0|skip 01;go;|5 Number
";
