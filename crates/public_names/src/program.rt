//! The whole program in one call, on files of the folder in which the test runs.
use crate::expecting::expect;
use mot_base::Refusal;
use mot_server::run_program;
use std::alloc::Global;
use std::fs;

fn words_of(alloc: Global, line: &str) -> Result<Vec<String>, Refusal> {
    let mut words = Vec::new(alloc);
    for word in line.split_whitespace() {
        words.push(String::from_str(alloc, word)?)?;
    }
    Ok(words)
}

// The text up to its first line end.
fn first_line(text: &[u8]) -> &[u8] {
    match text.iter().position(|byte| *byte == b'\n') {
        Some(end) => &text[..end],
        None => text,
    }
}

// The status of a run with these words and this input, and whether this was printed, and this is the
// first line of the errors.
fn ran(
    rt: &HostRuntime,
    words: &str,
    input: &str,
    printed: &str,
    error: &str,
) -> Result<(u8, bool, bool), Refusal> {
    let alloc = rt.alloc();
    let words = words_of(alloc, words)?;
    let mut reader = input.as_bytes();
    let (mut writer, mut errors) = (Vec::new(alloc), Vec::new(alloc));
    let status = run_program(rt, alloc, &words, &mut reader, &mut writer, &mut errors);
    let is_printed = writer.as_slice() == printed.as_bytes();
    Ok((status, is_printed, first_line(&errors) == error.as_bytes()))
}

// Makes a folder with nothing in it. Where it can't be made, the rows of files fail.
fn make_folder(rt: &HostRuntime, name: &str) {
    take_away(rt, name);
    let _ = fs::create_dir(rt, name);
}

fn take_away(rt: &HostRuntime, name: &str) {
    let _ = fs::remove_dir_all(rt, name);
}

// Words, the input, and what is printed. Each row finds the disks as those above it left them.
#[test]
fn what_is_asked_for_is_done(rt: HostRuntime) {
    let rows = [
        (
            "memory --packet 24",
            "raw 4 2 68656c6c6f\n",
            "packet 0c011074008000120002000568656c6c6f34cf0000008561\n",
        ),
        (
            "memory --packet 24",
            "turn",
            "packet 08011376008000120001000d0000000d0000000000049c3d\n\
             packet 140105000000f10d000000000000000000000000000017ad end\n",
        ),
        (
            "memory --objects 1",
            "raw 5 2 00\nraw 4 0 00\nput a 2 3 - 00\nput b 2 3 - 00\nperiod 7\n",
            "refused 3 BadType\nrefused 8 BadNumber\ndone object 2 directory 3\n\
             refused 11 TooManyObjects\ndone directory 4\n",
        ),
        ("format done.test/one", "", "formatted 84032\n"),
        (
            "serve done.test/one",
            "put a 2 3 - 0102030405\nlist\n",
            "done object 2 directory 3\ncarousel 0 3 3 1\nobject 2 0 2 3 5 a -\n",
        ),
        (
            "serve done.test/one",
            "withdraw b\nlist",
            "refused 10 NoSuchName\ncarousel 0 3 3 1\nobject 2 0 2 3 5 a -\n",
        ),
        (
            "check done.test/one",
            "",
            "carousel 0 3 3 1\nobject 2 0 2 3 5 a -\nclean\nlayout 2\n",
        ),
        ("migrate done.test/one", "", "already layout 2\n"),
        (
            "format done.test/other --objects 1 --data 1",
            "",
            "formatted 3137\n",
        ),
    ];
    make_folder(&rt, "done.test");
    for (words, input, printed) in rows {
        let came = ran(&rt, words, input, printed, "");
        expect(&rt, (words, came), (words, Ok((0, true, true))));
    }
    take_away(&rt, "done.test");
}

// Words, and the first line of the errors; of files there are a disk, and one byte less than the
// head of a disk has. The geometry that is refused makes no file.
#[test]
fn a_refusal_is_told(rt: HostRuntime) {
    let rows = [
        ("memory --packet 25", "motcar: 21 BadGeometry"),
        ("memory --objects 70000", "motcar: 21 BadGeometry"),
        ("format told.test/disk", "motcar: 18 AlreadyFormatted"),
        ("format told.test/short", "motcar: 19 DiskTooSmall"),
        ("serve told.test/short", "motcar: 17 NotFormatted"),
        ("format told.test/new --objects 0", "motcar: 21 BadGeometry"),
        ("serve told.test/new", "motcar: 15 DeviceFault"),
    ];
    make_folder(&rt, "told.test");
    let _ = fs::write(&rt, "told.test/short", &[0; 63]);
    let _ = ran(&rt, "format told.test/disk", "", "", "");
    for (words, error) in rows {
        let came = ran(&rt, words, "", "", error);
        expect(&rt, (words, came), (words, Ok((1, true, true))));
    }
    take_away(&rt, "told.test");
}

// The status is 2, nothing is printed, and something is told.
#[test]
fn wrong_words_are_told(rt: HostRuntime) {
    for words in ["", "memory --packet x", "serve", "bogus"] {
        let came = ran(&rt, words, "list\n", "", "");
        expect(&rt, (words, came), (words, Ok((2, true, false))));
    }
}
