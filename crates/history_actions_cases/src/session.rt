//! A folder's two parts, and what words do with them.

use crate::line::{action_of, read};
use crate::narrow::Narrow;
use case_drops::Drops;
use case_words::{Page, Session, Trial, act_on, read_bytes, sound};
use gix_ref_file::MemoryFiles;
use history::{Bytes, Collected, Kind, Sink, Source};
use history_actions::command_line::{Action, Asked};
use history_actions::{Performed, act, perform, report};
use std::alloc::Global;
use std::mem;

/// The two parts of a folder.
#[derive(Drop)]
pub struct Folder {
    kind: Kind,
    objects: Trial,
    names: Trial,
}

impl Session for Folder {
    fn begin(alloc: Global, first: &str) -> Option<Folder> {
        let kind = match first {
            "sha1" => Kind::Sha1,
            "sha256" => Kind::Sha256,
            _ => return None,
        };
        Some(Folder {
            kind,
            objects: sound(MemoryFiles::new(alloc)),
            names: sound(MemoryFiles::new(alloc)),
        })
    }

    fn act(&mut self, alloc: Global, word: &str, number: u64, page: &mut Page) -> Option<()> {
        let (operation, rest) = word.split_once(':').unwrap_or((word, ""));
        match operation {
            "objects" => act_on(alloc, &mut self.objects, rest, number, page),
            "names" => act_on(alloc, &mut self.names, rest, number, page),
            "words" => read(alloc, rest, page),
            "last" => self.act_last(alloc, rest, page),
            "drops" => self.run_from_drops(alloc, rest, page),
            "narrow" => self.write_narrowly(alloc, rest, page),
            _ => self.perform(alloc, operation, rest, page),
        }
    }
}

impl Folder {
    // Returns what a command line means; the two parts take the place of the folder's path.
    fn asked(&self, alloc: Global, action: Action) -> Option<Asked> {
        Some(Asked {
            action,
            folder: String::from_str(alloc, "there").ok()?,
            kind: self.kind,
        })
    }

    // Takes the two parts out; the session then has none of their files.
    fn take(&mut self, alloc: Global) -> (Trial, Trial) {
        (
            mem::replace(&mut self.objects, sound(MemoryFiles::new(alloc))),
            mem::replace(&mut self.names, sound(MemoryFiles::new(alloc))),
        )
    }

    // Performs an action, and keeps what it leaves.
    fn perform_on<R: Source, W: Sink>(
        &mut self,
        alloc: Global,
        action: Action,
        reader: &mut R,
        writer: &mut W,
        errors: &mut Collected,
    ) -> Option<u8> {
        let asked = self.asked(alloc, action)?;
        let (objects, names) = self.take(alloc);
        let Performed {
            answer,
            objects,
            names,
        } = perform(alloc, &asked, objects, names, reader, writer);
        self.objects = objects;
        self.names = names;
        Some(report(self.kind, &answer, errors))
    }

    // Performs `ACTION`, or `run:STREAM`.
    fn perform(&mut self, alloc: Global, name: &str, stream: &str, page: &mut Page) -> Option<()> {
        let input = read_bytes(alloc, if stream.is_empty() { "-" } else { stream })?;
        let mut written = Collected::new(alloc);
        let mut errors = Collected::new(alloc);
        let mut reader = Bytes::new(&input);
        let action = action_of(name)?;
        let status = self.perform_on(alloc, action, &mut reader, &mut written, &mut errors)?;
        show(status, written.as_slice(), errors.as_slice(), page);
        Some(())
    }

    // Performs a run of `COUNT:STREAM`, whose reader gives one byte at a time and fails after so
    // many.
    fn run_from_drops(&mut self, alloc: Global, rest: &str, page: &mut Page) -> Option<()> {
        let (good, stream) = rest.split_once(':')?;
        let input = read_bytes(alloc, stream)?;
        let mut written = Collected::new(alloc);
        let mut errors = Collected::new(alloc);
        let mut reader = Drops::new(&input, good.parse().ok()?);
        let status = self.perform_on(alloc, Action::Run, &mut reader, &mut written, &mut errors)?;
        show(status, written.as_slice(), errors.as_slice(), page);
        Some(())
    }

    // Performs `COUNT:ACTION`, whose writer takes so many bytes and fails.
    fn write_narrowly(&mut self, alloc: Global, rest: &str, page: &mut Page) -> Option<()> {
        let (room, name) = rest.split_once(':')?;
        let mut written = Narrow::new(alloc, room.parse().ok()?);
        let mut errors = Collected::new(alloc);
        let mut reader = Bytes::new(b"names\n");
        let action = action_of(name)?;
        let status = self.perform_on(alloc, action, &mut reader, &mut written, &mut errors)?;
        show(status, written.taken(), errors.as_slice(), page);
        Some(())
    }

    // Performs `ACTION:COUNT` in one call, which keeps neither part; its errors go to a sink that
    // takes so many bytes.
    fn act_last(&mut self, alloc: Global, rest: &str, page: &mut Page) -> Option<()> {
        let (name, room) = rest.split_once(':')?;
        let asked = self.asked(alloc, action_of(name)?)?;
        let (objects, names) = self.take(alloc);
        let mut written = Collected::new(alloc);
        let mut errors = Narrow::new(alloc, room.parse().ok()?);
        let mut reader = Bytes::new(b"names\n");
        let status = act(
            alloc,
            &asked,
            objects,
            names,
            &mut reader,
            &mut written,
            &mut errors,
        );
        show(status, written.as_slice(), errors.taken(), page);
        Some(())
    }
}

/// Shows the status, what was written and what was reported.
pub fn show(status: u8, written: &[u8], errors: &[u8], page: &mut Page) {
    page.value(status);
    page.text(":");
    page.bytes(written);
    page.text(":");
    page.bytes(errors);
}
