use crate::scripts::{FOUR, PRINTED, SCRIPT, SIXTY};
use crate::texts::TEXTS;
use script_text::{
    MOST_GENERATED, Rule, ScriptFault, TEXT_LIMIT, generate, parse_capture, parse_command,
    parse_config, parse_lives, parse_policy, parse_script, print_script,
};
use spdm_basis::Bytes;
use std::alloc::{AllocError, Global};
use std::process::Abort;
use std::test::Fail;

// A responder and a requester.
const RESPONDER: &str = "responder 8 1024 4096 64 30 mhkc";

const REQUESTER: &str = "requester 9 1024 4096 64 0 hkc 71 11 -";

// Bytes of zeros in hexadecimal digits.
fn zeros(alloc: Global, count: usize) -> Result<String, AllocError> {
    let mut text = String::new(alloc);
    for _ in 0..count {
        text.push_str("00")?;
    }
    Ok(text)
}

// What stands in front of a text of the table.
fn front(alloc: Global, name: &str) -> Result<String, AllocError> {
    let seed = zeros(alloc, 32)?;
    match name {
        "C" => format!(in alloc; "seed {seed}\n{RESPONDER}\n{REQUESTER}\n"),
        "E" => format!(in alloc; "seed {seed}\n{RESPONDER}\n{REQUESTER}\nend\n"),
        "N" => format!(in alloc; "{RESPONDER}\n{REQUESTER}\n"),
        _ => Ok(String::new(alloc)),
    }
}

// A text of the table with its shorter forms written out.
fn written_out(alloc: Global, text: &str) -> Result<String, AllocError> {
    let mut whole = String::new(alloc);
    let mut is_count = false;
    for part in text.split('@') {
        if is_count {
            whole.push_str(zeros(alloc, part.parse().unwrap_or(0))?.as_str())?;
        } else {
            for c in part.chars() {
                match c {
                    ';' => whole.push('\n')?,
                    '$' => whole.push_str(RESPONDER)?,
                    '&' => whole.push_str(REQUESTER)?,
                    c => whole.push(c)?,
                }
            }
        }
        is_count = !is_count;
    }
    Ok(whole)
}

// An answer as the table has it.
fn word_of<T: Drop>(alloc: Global, answer: Result<T, ScriptFault>) -> Result<String, AllocError> {
    match answer {
        Ok(_) => String::from_str(alloc, "ok"),
        Err(ScriptFault::Line(number, fault)) => format!(in alloc; "{number} {fault:?}"),
        Err(ScriptFault::TooManyEvents(number)) => format!(in alloc; "{number} TooManyEvents"),
        Err(ScriptFault::OutOfMemory) => String::from_str(alloc, "out of memory"),
    }
}

// What comes of a text of a form.
fn answer(rt: &impl Abort, alloc: Global, form: &str, text: &[u8]) -> Result<String, AllocError> {
    assert!(rt; text.len() <= TEXT_LIMIT);
    match form {
        "S" => word_of(alloc, parse_script(alloc, text)),
        "L" => word_of(alloc, parse_lives(alloc, text)),
        "O" => word_of(alloc, parse_policy(alloc, text, 5)),
        _ => {
            let config = format!(in alloc; "{RESPONDER}\n{REQUESTER}\nend\n")?;
            assert!(rt; config.len() <= TEXT_LIMIT);
            match parse_config(alloc, config.as_bytes()) {
                Ok(config) => word_of(alloc, parse_command(alloc, &config, text)),
                Err(_) => String::from_str(alloc, "no configuration"),
            }
        }
    }
}

// That a row of the table has its answer.
fn expect_row(rt: &(impl AllocGlobal + Abort), row: &str) -> Result<(), Fail> {
    let alloc = rt.alloc();
    let (form, rest) = row.split_once('|').ok_or("no form")?;
    let (name, rest) = rest.split_once('|').ok_or("no front")?;
    let (text, wanted) = rest.split_once('|').ok_or("no answer")?;
    let mut whole = front(alloc, name)?;
    whole.push_str(written_out(alloc, text)?.as_str())?;
    let got = answer(rt, alloc, form, whole.as_bytes())?;
    assert_eq!(rt; got.as_str(), wanted, "{row}");
    Ok(())
}

#[test]
fn texts_have_the_answers_of_the_table(rt: HostRuntime) -> Result<(), Fail> {
    let mut count = 0u32;
    for row in TEXTS.lines() {
        expect_row(&rt, row)?;
        count = count.saturating_add(1);
    }
    assert_eq!(rt; count, 45);
    Ok(())
}

// That a script has this answer with a piece of text so many times behind the configuration, and then another.
fn expect_long(
    rt: &(impl AllocGlobal + Abort),
    (first, piece, count, last): (&str, &str, u32, &str),
    wanted: &str,
) -> Result<(), Fail> {
    let mut text = front(rt.alloc(), "E")?;
    text.push_str(first)?;
    for _ in 0..count {
        text.push_str(piece)?;
    }
    text.push_str(last)?;
    let got = answer(rt, rt.alloc(), "S", text.as_bytes())?;
    assert_eq!(rt; got.as_str(), wanted);
    Ok(())
}

// A line has at most 16,384 bytes.
#[test]
fn long_lines(rt: HostRuntime) -> Result<(), Fail> {
    expect_long(&rt, ("#", "x", 16_383, ""), "ok")?;
    expect_long(&rt, ("#", "x", 16_384, ""), "5 LineTooLong")
}

// A script has at most 100,000 events.
#[test]
fn many_events(rt: HostRuntime) -> Result<(), Fail> {
    for (last, wanted) in [
        ("", "ok"),
        ("show", "100005 TooManyEvents"),
        ("show x", "100005 Words"),
        ("# x", "ok"),
    ] {
        expect_long(&rt, ("", "show\n", 100_000, last), wanted)?;
    }
    Ok(())
}

// The text of the script that a text is.
fn printed(rt: &(impl AllocGlobal + Abort), text: &[u8]) -> Result<Bytes, Fail> {
    assert!(rt; text.len() <= TEXT_LIMIT);
    let script = parse_script(rt.alloc(), text)?;
    assert!(rt; script.config.requesters.as_slice().len() <= 8);
    Ok(print_script(rt.alloc(), &script)?)
}

#[test]
fn each_kind_of_line_is_read_and_printed(rt: HostRuntime) -> Result<(), Fail> {
    let once = printed(&rt, SCRIPT.as_bytes())?;
    assert_eq!(rt; once.as_slice(), PRINTED.as_bytes());
    let twice = printed(&rt, once.as_slice())?;
    assert_eq!(rt; twice.as_slice(), PRINTED.as_bytes());
    Ok(())
}

// The lines of the events of that script.
const EVENT_LINES: [u32; 21] = [
    15, 17, 18, 19, 20, 21, 22, 23, 24, 25, 26, 27, 28, 29, 30, 31, 33, 34, 35, 36, 37,
];

#[test]
fn each_event_has_its_line(rt: HostRuntime) -> Result<(), Fail> {
    assert!(rt; SCRIPT.len() <= TEXT_LIMIT);
    let script = parse_script(rt.alloc(), SCRIPT.as_bytes())?;
    let entries = script.events.as_slice();
    assert_eq!(rt; entries.len(), EVENT_LINES.len());
    for (entry, line) in entries.iter().zip(EVENT_LINES.iter()) {
        assert_eq!(rt; entry.line, *line);
    }
    Ok(())
}

// That the script of a seed has this text, which is read back as that script.
fn expect_generated(
    rt: &(impl AllocGlobal + Abort),
    seed: u64,
    count: u32,
    wanted: &str,
) -> Result<(), Fail> {
    assert!(rt; count <= MOST_GENERATED);
    let script = generate(rt.alloc(), seed, count)?;
    assert!(rt; script.config.requesters.as_slice().len() <= 8);
    let text = print_script(rt.alloc(), &script)?;
    assert_eq!(rt; text.as_slice(), wanted.as_bytes());
    assert!(rt; wanted.len() <= TEXT_LIMIT);
    let read = parse_script(rt.alloc(), wanted.as_bytes())?;
    let pairs = read.events.as_slice().iter().zip(script.events.as_slice());
    for (ours, theirs) in pairs {
        assert_eq!(rt; ours.line, theirs.line);
    }
    Ok(())
}

#[test]
fn generated_scripts_are_those_of_their_seed(rt: HostRuntime) -> Result<(), Fail> {
    expect_generated(&rt, 0, 4, FOUR)?;
    expect_generated(&rt, u64::MAX, 60, SIXTY)
}

#[test]
fn captures_have_their_packets(rt: HostRuntime) -> Result<(), Fail> {
    let mut text = front(rt.alloc(), "E")?;
    text.push_str("packet 1 01ABcd\n#\npacket 2 -\n")?;
    assert!(rt; text.len() <= TEXT_LIMIT);
    let capture = parse_capture(rt.alloc(), text.as_bytes())?;
    let packets = capture.packets.as_slice();
    assert_eq!(rt; packets.len(), 2);
    assert_eq!(rt; packets[0].as_slice(), [0x01, 0xab, 0xcd].as_slice());
    assert!(rt; packets[1].as_slice().is_empty());
    Ok(())
}

#[test]
fn lives_have_their_lines_and_events(rt: HostRuntime) -> Result<(), Fail> {
    let mut text = front(rt.alloc(), "E")?;
    text.push_str("show\n\ncycle\ncycle\nshow\nshow\n")?;
    assert!(rt; text.len() <= TEXT_LIMIT);
    let lives = parse_lives(rt.alloc(), text.as_bytes())?;
    let wanted = [(0, 1), (7, 0), (8, 2)];
    assert_eq!(rt; lives.lives.as_slice().len(), wanted.len());
    for (life, (line, count)) in lives.lives.as_slice().iter().zip(wanted.as_slice()) {
        assert_eq!(rt; life.cycle_line, *line);
        assert_eq!(rt; life.events.as_slice().len(), *count);
    }
    Ok(())
}

#[test]
fn policies_have_their_rules(rt: HostRuntime) -> Result<(), Fail> {
    let rules = parse_policy(rt.alloc(), b"expect 1 129 aB\nskip 254\ngo\nexpect", 5)?;
    let rules = rules.as_slice();
    assert_eq!(rt; rules.len(), 2);
    if let Rule::Expect {
        index,
        value_type,
        value,
    } = &rules[0]
    {
        assert_eq!(rt; (*index, *value_type), (1, 129));
        assert_eq!(rt; value.as_slice(), [0xab].as_slice());
    } else {
        assert!(rt; false);
    }
    assert!(rt; matches!(&rules[1], Rule::Skip { index: 254 }));
    Ok(())
}
