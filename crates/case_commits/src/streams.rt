//! Streams of commits, and what is replied to them, with the ids that git gives.

use history::{Kind, ObjectId};

/// The kinds of digest.
pub const KINDS: [Kind; 2] = [Kind::Sha1, Kind::Sha256];

/// A text with ids of each kind.
#[derive(Drop)]
pub struct ByKind {
    pub sha1: &'static [u8],
    pub sha256: &'static [u8],
}

impl ByKind {
    pub fn of(&self, kind: Kind) -> &'static [u8] {
        match kind {
            Kind::Sha1 => self.sha1,
            Kind::Sha256 => self.sha256,
        }
    }
}

pub const INPUT: &[u8] =
    b"commit refs/heads/main new\nput file 1 5\na\nhello\nauthor 1 3 1 +0000\nA\na@b\ncommitter 1 3 1 +0000\nA\na@b\nmessage 3\none\nend\nfiles main\nshow main path 1\na\n";

pub const LISTED: ByKind = ByKind {
    sha1: b"ok files 1\nfile b6fc4c620b67d95f953a5c1c1230aaab5db5a1b0 1\na\n",
    sha256: b"ok files 1\nfile 8aec4e4876f854f688d0ebfc8f37598f38e5fd6903cccc850ca36591175aeb60 1\na\n",
};

pub const REPLIES: ByKind = ByKind {
    sha1: b"ok commit 66685e2ab14c48f6b22dfeca748179d40cfc74f0\nok files 1\nfile b6fc4c620b67d95f953a5c1c1230aaab5db5a1b0 1\na\nok show content file b6fc4c620b67d95f953a5c1c1230aaab5db5a1b0 5\nhello\n",
    sha256: b"ok commit 81c6fcd6b041c1d6f5e62076e03094f5af903b3e3a10c1860742675b69f1184b\nok files 1\nfile 8aec4e4876f854f688d0ebfc8f37598f38e5fd6903cccc850ca36591175aeb60 1\na\nok show content file 8aec4e4876f854f688d0ebfc8f37598f38e5fd6903cccc850ca36591175aeb60 5\nhello\n",
};

/// A commit on top of the input's.
pub const SECOND: &[u8] =
    b"commit refs/heads/main any\nput file 1 7\na\ngoodbye\nauthor 1 3 2 +0000\nA\na@b\ncommitter 1 3 2 +0000\nA\na@b\nmessage 3\ntwo\nend\n";

pub const SECOND_REPLY: ByKind = ByKind {
    sha1: b"ok commit dc6e747185a5cde1f61914653bf0821976ebf033\n",
    sha256: b"ok commit a5ea25249d07efccaadbf8c78d176b8ccc8ebfb7d3ee2e5e80bf06d2bd831a1a\n",
};

/// A branch with a file two folders deep, and another with a file one folder deep.
pub const TWO_BRANCHES: &[u8] =
    b"commit refs/heads/main new\nput file 5 5\na/b/c\nhello\nauthor 1 3 1 +0000\nA\na@b\ncommitter 1 3 1 +0000\nA\na@b\nmessage 3\none\nend\ncommit refs/heads/other new\nput file 3 4\nd/e\nmore\nauthor 1 3 2 +0000\nA\na@b\ncommitter 1 3 2 +0000\nA\na@b\nmessage 3\ntwo\nend\n";

/// Returns the id in replies that begin with `ok commit <id>`.
pub fn made_id(replies: &[u8]) -> Option<ObjectId> {
    let line = replies.split(|byte| *byte == b'\n').next()?;
    ObjectId::from_hex(line.strip_prefix(b"ok commit ")?).ok()
}
