//! A repository and its parts, and what words do with them.

use crate::refusals::show_open_error;
use crate::{face, files, indexed, runs};
use case_words::{Page, Session, Trial, act_on, sound};
use gix_ref_file::MemoryFiles;
use history::{CreateError, Kind, RecoverError, Repository, create, recover};
use std::alloc::Global;
use std::mem;

/// The two parts of a repository, or the repository that was opened from them; then they have no
/// files.
#[derive(Drop)]
pub struct Store {
    kind: Kind,
    objects: Trial,
    names: Trial,
    opened: Option<Repository<Trial>>,
}

impl Session for Store {
    fn begin(alloc: Global, first: &str) -> Option<Store> {
        let kind = match first {
            "sha1" => Kind::Sha1,
            "sha256" => Kind::Sha256,
            _ => return None,
        };
        Some(Store {
            kind,
            objects: sound(MemoryFiles::new(alloc)),
            names: sound(MemoryFiles::new(alloc)),
            opened: None,
        })
    }

    fn act(&mut self, alloc: Global, word: &str, number: u64, page: &mut Page) -> Option<()> {
        let (operation, rest) = word.split_once(':').unwrap_or((word, ""));
        match operation {
            "objects" => {
                self.close();
                act_on(alloc, &mut self.objects, rest, number, page)
            }
            "names" => {
                self.close();
                act_on(alloc, &mut self.names, rest, number, page)
            }
            "create" | "recover" | "open" | "close" | "left" => {
                self.change(alloc, operation, page);
                Some(())
            }
            "failed" => {
                self.show_failed(page);
                Some(())
            }
            "run" | "sum" | "drops" => match &mut self.opened {
                Some(repository) => runs::run(alloc, repository, operation, rest, number, page),
                None => {
                    page.word("closed");
                    Some(())
                }
            },
            "row" => match &self.opened {
                Some(repository) => indexed::show_row(alloc, repository, rest, page),
                None => {
                    page.word("closed");
                    Some(())
                }
            },
            "put" => face::put(alloc, self.kind, rest, page),
            _ => runs::answer(alloc, self.kind, operation, rest, page),
        }
    }
}

impl Store {
    // Takes the parts out of a repository that was opened.
    fn close(&mut self) {
        if let Some(repository) = mem::replace(&mut self.opened, None) {
            let (objects, names) = repository.into_parts();
            self.objects = objects;
            self.names = names;
        }
    }

    fn change(&mut self, alloc: Global, operation: &str, page: &mut Page) {
        self.close();
        match operation {
            "create" => show_created(
                create(alloc, &mut self.objects, &mut self.names, self.kind),
                page,
            ),
            "open" => self.open(alloc, page),
            "recover" => self.recover(alloc, page),
            "left" => {
                self.mend(alloc);
                self.show_left(alloc, page);
            }
            _ => {}
        }
    }

    // Lets no call fail from here on.
    fn mend(&mut self, alloc: Global) {
        mend(alloc, &mut self.objects);
        mend(alloc, &mut self.names);
    }

    fn recover(&mut self, alloc: Global, page: &mut Page) {
        match recover(alloc, &mut self.objects, &mut self.names, self.kind) {
            Ok(()) => page.word("recovered"),
            Err(RecoverError::File) => page.word("File"),
            Err(RecoverError::Memory) => page.word("Memory"),
        }
    }

    // Recovers the two parts, and shows all that they have then.
    fn show_left(&mut self, alloc: Global, page: &mut Page) {
        match recover(alloc, &mut self.objects, &mut self.names, self.kind) {
            Ok(()) => {
                files::show("objects", alloc, &self.objects, page);
                files::show("names", alloc, &self.names, page);
            }
            Err(_) => page.word("failed"),
        }
    }

    fn open(&mut self, alloc: Global, page: &mut Page) {
        let objects = mem::replace(&mut self.objects, sound(MemoryFiles::new(alloc)));
        let names = mem::replace(&mut self.names, sound(MemoryFiles::new(alloc)));
        match Repository::open(alloc, objects, names, self.kind) {
            Ok(repository) => {
                page.word("opened");
                self.opened = Some(repository);
            }
            Err(refusal) => {
                show_open_error(&refusal.error, page);
                self.objects = refusal.objects;
                self.names = refusal.names;
            }
        }
    }

    fn show_failed(&self, page: &mut Page) {
        match &self.opened {
            Some(repository) if repository.has_failed() => page.word("failed"),
            Some(_) => page.word("sound"),
            None => page.word("closed"),
        }
    }
}

fn mend(alloc: Global, files: &mut Trial) {
    let inner = mem::replace(files, sound(MemoryFiles::new(alloc))).into_inner();
    *files = sound(inner);
}

fn show_created(created: Result<(), CreateError>, page: &mut Page) {
    match created {
        Ok(()) => page.word("created"),
        Err(CreateError::NotEmpty(path)) => page.named("NotEmpty", &path),
        Err(CreateError::File) => page.word("File"),
        Err(CreateError::Memory) => page.word("Memory"),
    }
}
