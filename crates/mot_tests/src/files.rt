//! Rows of real files. Each test makes a folder of its own where it runs, and takes it away again.
use crate::expecting::expect;
use disk_store::FileDisk;
use std::fs;
use std::os::unix;

// A folder of this name with nothing in it.
fn make_empty_folder(rt: &HostRuntime, name: &str) {
    take_away(rt, name);
    let _ = fs::create_dir(rt, name);
}

fn take_away(rt: &HostRuntime, name: &str) {
    let _ = fs::remove_dir_all(rt, name);
}

// Whether a new file is made at a path.
fn is_made(rt: &HostRuntime, path: &str, len: u64) -> bool {
    FileDisk::create(rt, rt.alloc(), path, len).is_ok()
}

// What has the name already is left as it is, a link to nothing among it.
#[test]
fn only_a_new_name_is_made(rt: HostRuntime) {
    make_empty_folder(&rt, "made.test");
    make_empty_folder(&rt, "made.test/folder");
    write_file(&rt, "made.test/file", b"abc");
    link(&rt, "nothing", "made.test/link");
    for path in [
        "made.test/file",
        "made.test/folder",
        "made.test/link",
        "made.test/missing/disk",
    ] {
        expect(&rt, (path, is_made(&rt, path, 8)), (path, false));
    }
    expect(&rt, is_made(&rt, "made.test/disk", 8), true);
    expect(&rt, is_file_of(&rt, "made.test/disk", &[0; 8]), true);
    expect(&rt, is_file_of(&rt, "made.test/file", b"abc"), true);
    expect(&rt, is_there(&rt, "made.test/nothing"), false);
    take_away(&rt, "made.test");
}

// Where one of these fails, so does what the test looks at then.
fn write_file(rt: &HostRuntime, path: &str, bytes: &[u8]) {
    let _ = fs::write(rt, path, bytes);
}

fn link(rt: &HostRuntime, to: &str, path: &str) {
    let _ = unix::fs::symlink(rt, to, path);
}

// Whether there is something at a path; also where the system does not tell.
fn is_there(rt: &HostRuntime, path: &str) -> bool {
    !matches!(fs::exists(rt, path), Ok(false))
}

// Whether a file has these bytes.
fn is_file_of(rt: &HostRuntime, path: &str, bytes: &[u8]) -> bool {
    match fs::read(rt, path) {
        Ok(found) => found.as_slice() == bytes,
        Err(_) => false,
    }
}
