//! A `packed-refs` of several pieces: it is opened, or refused by its first bad line.

use case_commits::{INPUT, parts_after};
use gix_ref_file::Files;
use history::Kind;
use history_check_names::survey_names;
use history_check_objects::whole_objects;
use history_store::{Names, PACKED};
use history_texts::OpenError;
use std::alloc::Global;
use std::process::Abort;
use std::test::Fail;

const HEADER: &[u8] = b"# pack-refs with: peeled fully-peeled sorted \n";

const FIRST: u32 = 1_000;

const END: u32 = 4_000;

// More bytes than a piece has.
const MANY: usize = 70_000;

// Adds records of these names, which hold the commit that `INPUT` makes. Each has 56 bytes.
fn add_records(alloc: Global, text: &mut Vec<u8>, first: u32, end: u32) -> Result<(), Fail> {
    for number in first..end {
        let line = format!(in alloc;
            "66685e2ab14c48f6b22dfeca748179d40cfc74f0 refs/tags/{number}\n"
        )?;
        text.extend_from_slice(line.as_bytes())?;
    }
    Ok(())
}

// Returns a text of two pieces and a half: the front, records, the text that is put before the
// record of that number, and the other records.
fn text_with(alloc: Global, front: &[u8], number: u32, put: &[u8]) -> Result<Vec<u8>, Fail> {
    let mut text = Vec::from_slice(alloc, front)?;
    add_records(alloc, &mut text, FIRST, number)?;
    text.extend_from_slice(put)?;
    add_records(alloc, &mut text, number, END)?;
    Ok(text)
}

// Returns the line by which the names part with this `packed-refs` is refused, if it is.
fn refused_line(rt: &impl Abort, alloc: Global, packed: &[u8]) -> Result<Option<usize>, Fail> {
    let (objects, mut files) = parts_after(alloc, Kind::Sha1, &[INPUT]).ok_or("no parts")?;
    files.write(alloc, PACKED, packed)?;
    let whole = whole_objects(alloc, &objects, Kind::Sha1)?;
    let mut names = Names::new(alloc, files, Kind::Sha1);
    match survey_names(alloc, &mut names, &whole.stored) {
        Ok(_) => Ok(None),
        Err(OpenError::BadPacked(number)) => Ok(Some(number)),
        Err(_) => panic!(rt; "refused otherwise"),
    }
}

// Returns a line of spaces after these bytes, longer than a piece.
fn long_line(alloc: Global, front: &[u8]) -> Result<Vec<u8>, Fail> {
    let mut line = Vec::from_slice(alloc, front)?;
    let spaces = vec![in alloc; b' '; MANY]?;
    line.extend_from_slice(&spaces)?;
    line.push(b'\n')?;
    Ok(line)
}

#[test]
fn many_records_are_opened(rt: HostRuntime) -> Result<(), Fail> {
    let alloc = rt.alloc();
    let text = text_with(alloc, HEADER, END, b"")?;
    assert!(rt; refused_line(&rt, alloc, &text)?.is_none());
    let header = long_line(alloc, b"# pack-refs with: sorted")?;
    let text = text_with(alloc, &header, END, b"")?;
    assert!(rt; refused_line(&rt, alloc, &text)?.is_none());
    Ok(())
}

#[test]
fn many_records_are_refused_by_a_line(rt: HostRuntime) -> Result<(), Fail> {
    let alloc = rt.alloc();
    let line = long_line(alloc, b"")?;
    let zeros = vec![in alloc; 0; MANY]?;
    let early = text_with(alloc, HEADER, FIRST, b"x\n")?;
    let third_piece = text_with(alloc, HEADER, 3_500, &line)?;
    let tail = text_with(alloc, HEADER, END, &zeros)?;
    assert!(rt; refused_line(&rt, alloc, &early)? == Some(2));
    assert!(rt; refused_line(&rt, alloc, &third_piece)? == Some(2_502));
    assert!(rt; refused_line(&rt, alloc, &tail)? == Some(3_002));
    assert!(rt; refused_line(&rt, alloc, &zeros)? == Some(1));
    Ok(())
}

#[test]
fn a_header_without_end_is_refused(rt: HostRuntime) -> Result<(), Fail> {
    let alloc = rt.alloc();
    let mut header = long_line(alloc, b"# pack-refs with: sorted")?;
    header.pop();
    assert!(rt; refused_line(&rt, alloc, &header)? == Some(1));
    Ok(())
}
