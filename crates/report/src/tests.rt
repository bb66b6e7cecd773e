// Every limit of the file format and of a sheet on both sides, by what is printed.
use super::*;
use std::fmt::Write;
use std::process::Abort;
use std::test::Fail;

const FIRST_LINE: &[u8] = b"routine seconds light turn calls\n";

// What is printed for a whole file.
fn output_of(heap: Global, text: &[u8]) -> Result<String, AllocError> {
    match printed(heap, text) {
        Ok(output) | Err(Unprinted::Refused(output)) => Ok(output),
        Err(Unprinted::Memory(error)) => Err(error),
    }
}

fn expect(rt: &impl Abort, heap: Global, text: &[u8], output: &str) -> Result<(), Fail> {
    let found = output_of(heap, text)?;
    assert!(rt; found.as_str() == output, "{}", output);
    Ok(())
}

// The same for lines behind the first one.
fn expect_lines(rt: &impl Abort, heap: Global, lines: &[u8], output: &str) -> Result<(), Fail> {
    let mut text = FIRST_LINE.to_vec(heap)?;
    text.extend_from_slice(lines)?;
    expect(rt, heap, &text, output)
}

// Lines behind the first one, with what is printed for them.
struct Case {
    lines: &'static [u8],
    printed: &'static str,
}

const CASES: [Case; 34] = [
    Case {
        lines: b"",
        printed: "routine least most light disc\nrounds 0 0 0 0\n",
    },
    Case {
        lines: b"A 1 2 3 -\n",
        printed: "routine least most light disc\nA 1 1 2 000008\nrounds 0 0 0 0\n",
    },
    Case {
        lines: b"A 1 2 3 -",
        printed: "refused 22 reader line 2 byte 33\n",
    },
    Case {
        lines: b"\n",
        printed: "refused 22 reader line 2 byte 33\n",
    },
    Case {
        lines: b"A 1 2 3 -\n\n",
        printed: "refused 22 reader line 3 byte 43\n",
    },
    Case {
        lines: b"A 1 2 3\n",
        printed: "refused 22 reader line 2 byte 33\n",
    },
    Case {
        lines: b"A 1 2 3 - \n",
        printed: "refused 22 reader line 2 byte 33\n",
    },
    Case {
        lines: b" 1 2 3 -\n",
        printed: "refused 23 reader line 2 byte 33\n",
    },
    Case {
        lines: b"A  2 3 -\n",
        printed: "refused 24 reader line 2 byte 35\n",
    },
    Case {
        lines: b"A 1 2 3 \n",
        printed: "refused 25 reader line 2 byte 41\n",
    },
    Case {
        lines: b"A 1 2 3 -\r\n",
        printed: "refused 25 reader line 2 byte 41\n",
    },
    Case {
        lines: b"ABCDEFGHIJK9 1 2 3 -\n",
        printed: "routine least most light disc\nABCDEFGHIJK9 1 1 2 000008\nrounds 0 0 0 0\n",
    },
    Case {
        lines: b"ABCDEFGHIJKL9 1 2 3 -\n",
        printed: "refused 23 reader line 2 byte 33\n",
    },
    Case {
        lines: b"9A 1 2 3 -\n",
        printed: "refused 23 reader line 2 byte 33\n",
    },
    Case {
        lines: b"a 1 2 3 -\n",
        printed: "refused 23 reader line 2 byte 33\n",
    },
    Case {
        lines: b"A\xc3\x84 1 2 3 -\n",
        printed: "refused 23 reader line 2 byte 33\n",
    },
    Case {
        lines: b"A 1 2 3 -\nB 1 2 3 \xff\n",
        printed: "refused 25 reader line 3 byte 51\n",
    },
    Case {
        lines: b"A 3600 65535 23 -\n",
        printed: "routine least most light disc\nA 3600 3600 65535 800000\nrounds 0 0 0 0\n",
    },
    Case {
        lines: b"A 0 0 0 -\n",
        printed: "routine least most light disc\nA 0 0 0 000001\nrounds 0 0 0 0\n",
    },
    Case {
        lines: b"A 3601 0 0 -\n",
        printed: "refused 24 reader line 2 byte 35\n",
    },
    Case {
        lines: b"A 0 65536 0 -\n",
        printed: "refused 24 reader line 2 byte 37\n",
    },
    Case {
        lines: b"START 5 900 24 -\n",
        printed: "refused 24 reader line 2 byte 45\n",
    },
    Case {
        lines: b"A 00 0 0 -\n",
        printed: "refused 24 reader line 2 byte 35\n",
    },
    Case {
        lines: b"A 01 0 0 -\n",
        printed: "refused 24 reader line 2 byte 35\n",
    },
    Case {
        lines: b"A 1x 0 0 -\n",
        printed: "refused 24 reader line 2 byte 35\n",
    },
    Case {
        lines: b"A +1 0 0 -\n",
        printed: "refused 24 reader line 2 byte 35\n",
    },
    Case {
        lines: b"A 1 2 3 A+B+A+C\n",
        printed: "routine least most light disc\nA never never 0 000000\nB never never 0 000000\n\
            C never never 0 000000\nrounds 0 0 0 0\n",
    },
    Case {
        lines: b"A 1 2 3 A+B+A+C+D\n",
        printed: "refused 25 reader line 2 byte 41\n",
    },
    Case {
        lines: b"A 1 2 3 --\n",
        printed: "refused 25 reader line 2 byte 41\n",
    },
    Case {
        lines: b"A 1 2 3 A+\n",
        printed: "refused 25 reader line 2 byte 41\n",
    },
    Case {
        lines: b"A 1 2 3 +A\n",
        printed: "refused 25 reader line 2 byte 41\n",
    },
    Case {
        lines: b"A 1 2 3 A+-\n",
        printed: "refused 25 reader line 2 byte 41\n",
    },
    Case {
        lines: b"A 1 2 3 A+ABCDEFGHIJK9\n",
        printed: "routine least most light disc\nA never never 0 000000\n\
            ABCDEFGHIJK9 never never 0 000000\nrounds 0 0 0 0\n",
    },
    Case {
        lines: b"A 1 2 3 A+ABCDEFGHIJKL9\n",
        printed: "refused 25 reader line 2 byte 41\n",
    },
];

struct Example {
    script: &'static [u8],
    sheet: &'static str,
}

const EXAMPLES: [Example; 4] = [
    Example {
        script: b"routine seconds light turn calls\n\
            START 5 900 1 REFINE+REFINE\n\
            REFINE 4 700 2 -\n\
            REFINE 3 800 6 REFINE\n",
        sheet: "routine least most light disc\n\
            START 13 unlimited 700 820820\n\
            REFINE 4 unlimited 700 104104\n\
            rounds 1 1 1 1\n",
    },
    Example {
        script: b"routine seconds light turn calls\n\
            EXAM 60 1200 3 SETUP+FIELD+FIELD\n\
            SETUP 20 1500 0 -\n\
            SETUP 45 2000 6 DIM\n\
            FIELD 90 800 4 SPOT+SPOT+SPOT\n\
            FIELD 30 400 8 SPOT\n\
            SPOT 4 300 1 -\n\
            SPOT 7 900 2 DIM\n\
            DIM 2 1000 12 -\n",
        sheet: "routine least most light disc\n\
            EXAM 148 341 800 aaad55\n\
            SETUP 20 47 1500 040001\n\
            FIELD 34 117 800 500280\n\
            DIM 2 2 1000 001000\n\
            SPOT 4 9 900 004002\n\
            rounds 2 3 3 2\n",
    },
    Example {
        script: b"routine seconds light turn calls\n\
            LEFT 5 700 6 RIGHT\n\
            LEFT 9 500 2 -\n\
            RIGHT 4 900 6 LEFT\n\
            RIGHT 3 1000 0 LEFT+LEFT\n\
            BOTH 0 65535 0 LEFT+RIGHT\n",
        sheet: "routine least most light disc\n\
            LEFT 9 unlimited 500 444444\n\
            RIGHT 13 unlimited 500 111111\n\
            BOTH 22 unlimited 500 444444\n\
            rounds 1 1 1 1\n",
    },
    Example {
        script: b"routine seconds light turn calls\n\
            START 10 600 2 TRACK\n\
            START 12 500 4 SWEEP\n\
            TRACK 1 900 1 TRACK\n\
            SWEEP 8 800 3 -\n\
            SWEEP 8 800 3 TRACK\n",
        sheet: "routine least most light disc\n\
            START 20 20 500 000080\n\
            TRACK never never 0 000000\n\
            SWEEP 8 8 800 000008\n\
            rounds 1 1 1 1\n",
    },
];

#[test]
fn whole_files(rt: HostRuntime) -> Result<(), Fail> {
    let heap = rt.alloc();
    expect(&rt, heap, b"", "refused 21 reader line 1 byte 0\n")?;
    expect(
        &rt,
        heap,
        b"routine seconds light turn calls",
        "refused 21 reader line 1 byte 0\n",
    )?;
    expect(
        &rt,
        heap,
        b"routine seconds light turn calls \n",
        "refused 21 reader line 1 byte 0\n",
    )?;
    expect(
        &rt,
        heap,
        b"routine seconds light turn calls\r\n",
        "refused 21 reader line 1 byte 0\n",
    )
}

#[test]
fn lines(rt: HostRuntime) -> Result<(), Fail> {
    for case in &CASES {
        expect_lines(&rt, rt.alloc(), case.lines, case.printed)?;
    }
    Ok(())
}

// A number of 5,000 digits.
#[test]
fn many_digits(rt: HostRuntime) -> Result<(), Fail> {
    let heap = rt.alloc();
    let mut lines = b"A ".to_vec(heap)?;
    for _ in 0..5000u16 {
        lines.push(b'9')?;
    }
    lines.extend_from_slice(b" 0 0 -\n")?;
    expect_lines(&rt, heap, &lines, "refused 24 reader line 2 byte 35\n")
}

// As many lines with one name, and one line more.
fn repeated(heap: Global, times: u16, last: &[u8]) -> Result<Vec<u8>, AllocError> {
    let mut lines = Vec::new(heap);
    for _ in 0..times {
        lines.extend_from_slice(b"A 1 1 1 -\n")?;
    }
    lines.extend_from_slice(last)?;
    Ok(lines)
}

// 33 bytes of first line, 1,634 lines of 10, and one of 11 or of 12. The reader takes the first, of
// which a sheet refuses the two-hundred-and-first line.
#[test]
fn most_bytes(rt: HostRuntime) -> Result<(), Fail> {
    let heap = rt.alloc();
    let full = repeated(heap, 1634, b"AB 1 1 1 -\n")?;
    expect_lines(&rt, heap, &full, "refused 4 sheet line 202 byte 2033\n")?;
    let over = repeated(heap, 1634, b"ABC 1 1 1 -\n")?;
    expect_lines(&rt, heap, &over, "refused 20 reader line 0 byte 0\n")
}

// A line for each of so many letters and digits behind a letter, and one line more: a different
// name on each.
fn named(heap: Global, tails: &[u8], last: &[u8]) -> Result<Vec<u8>, AllocError> {
    let mut lines = Vec::new(heap);
    for tail in tails {
        lines.push(b'N')?;
        lines.push(*tail)?;
        lines.extend_from_slice(b" 1 1 1 -\n")?;
    }
    lines.extend_from_slice(last)?;
    Ok(lines)
}

// The sheet where the first of so many routines also calls the second and the last, and all others
// call none.
fn many_routines(heap: Global, tails: &[u8]) -> Result<String, AllocError> {
    let mut sheet = format!(in heap; "routine least most light disc\n")?;
    for (i, tail) in tails.iter().enumerate() {
        let name = char::from(*tail);
        let figures = if i == 0 {
            "1 3 1 00000a"
        } else {
            "1 1 1 000002"
        };
        writeln!(sheet, "N{name} {figures}")?;
    }
    writeln!(sheet, "rounds 0 1 0 1")?;
    Ok(sheet)
}

#[test]
fn most_names(rt: HostRuntime) -> Result<(), Fail> {
    let heap = rt.alloc();
    let most = b"0123456789ABCDEFGHIJKLMNOPQRSTUV";
    let all = named(heap, most, b"N0 1 1 1 N1+NV\n")?;
    let sheet = many_routines(heap, most)?;
    expect_lines(&rt, heap, &all, sheet.as_str())?;
    let routine = named(heap, most, b"NW 1 1 1 -\n")?;
    expect_lines(&rt, heap, &routine, "refused 26 reader line 34 byte 385\n")?;
    let call = named(heap, most, b"N0 1 1 1 N1+NW\n")?;
    expect_lines(&rt, heap, &call, "refused 26 reader line 34 byte 394\n")?;
    let bad = named(heap, most, b"N0 1 1 1 NW+-\n")?;
    expect_lines(&rt, heap, &bad, "refused 25 reader line 34 byte 394\n")
}

// 32 routines with 200 branches, and one branch more: 33 bytes of first line, 32 lines of 11, 168 of
// 15.
#[test]
fn most_branches(rt: HostRuntime) -> Result<(), Fail> {
    let heap = rt.alloc();
    let most = b"0123456789ABCDEFGHIJKLMNOPQRSTUV";
    let mut lines = named(heap, most, b"")?;
    for _ in 0..168u8 {
        lines.extend_from_slice(b"N0 1 1 1 N1+NV\n")?;
    }
    let sheet = many_routines(heap, most)?;
    expect_lines(&rt, heap, &lines, sheet.as_str())?;
    lines.extend_from_slice(b"N0 1 1 1 -\n")?;
    expect_lines(&rt, heap, &lines, "refused 4 sheet line 202 byte 2905\n")?;
    // the sheet has refused before the reader sees what is behind
    lines.extend_from_slice(b"bad\n")?;
    expect_lines(&rt, heap, &lines, "refused 4 sheet line 202 byte 2905\n")
}

// The scripts of examples/, with their sheets.
#[test]
fn examples(rt: HostRuntime) -> Result<(), Fail> {
    let heap = rt.alloc();
    for example in &EXAMPLES {
        expect(&rt, heap, example.script, example.sheet)?;
    }
    Ok(())
}
