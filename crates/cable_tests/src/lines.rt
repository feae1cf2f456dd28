// Lines and inputs with what they say.
ghost use Rattle.std.specs.Prelude.{⊤};

use recording::{BadLine, Digits, Line, Lines, Listener, no_memory, play, push_pairs, read_line};
use std::alloc::AllocError;
use std::io;
use std::process::Abort;
use std::test::Fail;

// What a good line says, with the number of its bytes.
#[derive(Clone, Copy, Debug, PartialEq, Eq)]
enum Said {
    Bytes(usize),
    Silence,
    Nothing,
}

type Told = Result<Said, BadLine>;

fn reading(line: Result<Line<'_>, BadLine>) -> Told {
    Ok(match line? {
        Line::Bytes(bytes) => Said::Bytes(bytes.len()),
        Line::Silence => Said::Silence,
        Line::Nothing => Said::Nothing,
    })
}

// Keeps each line that it is told, with its number. The test compares them, so no clause says what it keeps.
#[derive(Drop)]
struct Heard {
    lines: Vec<(u64, Told)>,
}

impl Listener for Heard {
    ghost hears = { λ _ _ _ _. ⊤ };

    ghost pauses = { λ _ _. ⊤ };

    fn line(&mut self, number: u64, line: Result<Line<'_>, BadLine>) -> io::Result<()> {
        self.lines.push((number, reading(line)))?;
        Ok(())
    }

    fn pause(&mut self) -> io::Result<()> {
        Ok(())
    }
}

// Reads a line, and compares its bytes.
fn says(rt: &impl Abort, line: &[u8], expected: Told, bytes: &[u8]) {
    assert_eq!(rt; reading(read_line(line)), expected);
    if let Ok(Line::Bytes(mut pairs)) = read_line(line) {
        for byte in bytes {
            assert_eq!(rt; pairs.next(), Some(*byte));
        }
        assert_eq!(rt; pairs.next(), None);
    }
}

// Compares the line that is ended, and its number.
fn ends(
    rt: &impl Abort,
    lines: &Lines,
    number: u64,
    expected: Option<(u64, &Told)>,
) -> Result<(), Fail> {
    assert_eq!(rt; lines.number(), number);
    let (count, says) = expected.ok_or("a line too many")?;
    assert_eq!(rt; number, count);
    assert_eq!(rt; reading(lines.line()), *says);
    Ok(())
}

// Takes an input, and compares each line as it ends.
fn gathers(rt: &impl Abort, input: &[u8], expected: &[Told]) -> Result<(), Fail> {
    let mut lines = Lines::new();
    let mut expected = (1..=u64::MAX).zip(expected);
    for b in input {
        if let Some(number) = lines.take(*b) {
            ends(rt, &lines, number, expected.next())?;
        }
    }
    if let Some(number) = lines.finish() {
        ends(rt, &lines, number, expected.next())?;
    }
    assert!(rt; expected.next().is_none());
    Ok(())
}

#[test]
fn pairs(rt: HostRuntime) {
    says(
        &rt,
        b"0123456789ABCDEF",
        Ok(Said::Bytes(8)),
        &[0x01, 0x23, 0x45, 0x67, 0x89, 0xAB, 0xCD, 0xEF],
    );
    says(
        &rt,
        b"abcdefaF",
        Ok(Said::Bytes(4)),
        &[0xAB, 0xCD, 0xEF, 0xAF],
    );
    says(&rt, b"9002900", Err(BadLine), &[]);
}

#[test]
fn lengths(rt: HostRuntime) -> Result<(), Fail> {
    says(&rt, &[b'f'; 4096], Ok(Said::Bytes(2048)), &[0xFF; 2048]);
    says(&rt, &[b'f'; 4098], Err(BadLine), &[]);
    gathers(&rt, &[b'0'; 4096], &[Ok(Said::Bytes(2048))])?;
    gathers(&rt, &[b'0'; 4097], &[Err(BadLine)])
}

#[test]
fn inputs(rt: HostRuntime) -> Result<(), Fail> {
    gathers(&rt, b"", &[])?;
    gathers(&rt, b"\n", &[Ok(Said::Nothing)])?;
    gathers(
        &rt,
        b"90\n\nS\n0\r\n02",
        &[
            Ok(Said::Bytes(1)),
            Ok(Said::Nothing),
            Ok(Said::Silence),
            Err(BadLine),
            Ok(Said::Bytes(1)),
        ],
    )?;
    gathers(
        &rt,
        b"s\nSS\n\r\nS\r\n90 0\n900\n900g\n/0\n0:\n@0\n90\xC3\xA4\n",
        &[Err(BadLine); 11],
    )
}

#[test]
fn played(rt: HostRuntime) -> Result<(), Fail> {
    let mut heard = Heard {
        lines: Vec::new(rt.alloc()),
    };
    let mut input = b"90\n\nS\n0\r\n02".as_slice();
    assert_eq!(rt; play(&mut input, &mut heard)?, 5);
    assert_eq!(rt;
        heard.lines.as_slice(),
        [
            (1, Ok(Said::Bytes(1))),
            (2, Ok(Said::Nothing)),
            (3, Ok(Said::Silence)),
            (4, Err(BadLine)),
            (5, Ok(Said::Bytes(1))),
        ]
        .as_slice()
    );
    Ok(())
}

#[test]
fn spelled(rt: HostRuntime) -> Result<(), Fail> {
    let bytes = [0x00, 0x9A, 0xFF];
    let mut text = format!(in rt.alloc(); "{}", Digits(&bytes))?;
    assert_eq!(rt; text.as_str(), "009AFF");
    push_pairs(&mut text, &bytes)?;
    assert_eq!(rt; text.as_str(), "009AFF009AFF");
    Ok(())
}

// Digits are written in parts: none, a whole one, and one byte more.
#[test]
fn spelled_in_parts(rt: HostRuntime) -> Result<(), Fail> {
    for count in [0usize, 32, 33] {
        let bytes = &[0x9A; 33][..count];
        let mut text = String::new(rt.alloc());
        push_pairs(&mut text, bytes)?;
        assert_eq!(rt;
            format!(in rt.alloc(); "{}", Digits(bytes))?.as_str(),
            text.as_str()
        );
    }
    Ok(())
}

#[test]
fn errors(rt: HostRuntime) -> Result<(), Fail> {
    assert_eq!(rt;
        BadLine.to_string(rt.alloc())?.as_str(),
        "neither digit pairs, nor S alone, nor empty"
    );
    let words = AllocError.to_string(rt.alloc())?;
    assert_eq!(rt; words.as_str(), "memory allocation failed");
    assert_eq!(rt;
        no_memory(AllocError).to_string(rt.alloc())?.as_str(),
        words.as_str()
    );
    Ok(())
}
