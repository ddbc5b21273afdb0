//! Worked examples on the definitions: ids, streams of one commit, grafts, refusals, and the empty stream.

ghost use Rattle.std.specs.Prelude.{◌≡◌, ◌+◌, ◌++◌, ◌∷◌, [], length, codes, IsTrue};
ghost use Rattle.history_model.specs.Bytes.{line};
ghost use Rattle.history_model.specs.Objects.{hex, blob_id, blob_text, digest, tree_text, root_within, empty_tree_id, commit_content, id_of, StoredCommit};
ghost use Rattle.history_model.specs.Spelling.{edit_parts, max_line, parts_text};
ghost use Rattle.history_model.specs.laws.Rows.{Gives, Refuses, first_commit, first_stream, first_output, empty_file_stream, empty_file_output, hello_stream, hello_output, three_files, content, lines, lib_files, GraftMakes, xs};
ghost use Rattle.history_model.specs.FileMap.{Graft, edited, grafts_nothing};
ghost use Rattle.history_model.specs.Commands.{GraftLine};
ghost use Rattle.gix_hash.specs.declared.kind.Kind.TheVariants.{Sha1, Sha256};

/// Ids of blobs and of the empty tree in both kinds; the first commit's 99 bytes and id; the tree
/// of three files in their order.
pub fn ids()
    ensures hello { blob_text (codes "hello") ≡ codes "blob 5" ++ 0 ∷ codes "hello" }
    ensures blob { hex (blob_id Sha1 []) ≡ codes "e69de29bb2d1d6434b8b29ae775ad8c2e48c5391" }
    ensures hello_blob { hex (blob_id Sha1 (codes "hello"))
        ≡ codes "b6fc4c620b67d95f953a5c1c1230aaab5db5a1b0" }
    ensures empty_tree { hex (empty_tree_id Sha1)
        ≡ codes "4b825dc642cb6eb9a060e54bf8d69288fbee4904" }
    ensures blob_sha256 { hex (blob_id Sha256 [])
        ≡ codes "473a0f4c3be8a93681a267e3b1e9a7dcda1185436fe141f7749120a303721813" }
    ensures hello_blob_sha256 { hex (blob_id Sha256 (codes "hello"))
        ≡ codes "8aec4e4876f854f688d0ebfc8f37598f38e5fd6903cccc850ca36591175aeb60" }
    ensures empty_tree_sha256 { hex (empty_tree_id Sha256)
        ≡ codes "6ef19b41225c5369f1c104d45d8d85efa9b057b53b14b4b9b939dd74decc5321" }
    ensures commit_len { length (commit_content Sha1 first_commit) ≡ 99 }
    ensures commit_id { hex (id_of Sha1 (StoredCommit first_commit))
        ≡ codes "d39b036c797dcd9c0210b66a094ee846a3bc4fd9" }
    ensures tree { hex (digest Sha1 (tree_text (root_within 4 Sha1 three_files)))
        ≡ codes "b8b673d28f410aa8dd3222ef9fffe69e44e01d26" }
{}

/// A commit without files; its files and the commit shown.
pub fn first_commit()
    ensures { Gives first_stream first_output }
{}

/// A commit of one empty file; its files shown.
pub fn empty_file()
    ensures { Gives empty_file_stream empty_file_output }
{}

/// A commit of the file `a` with the content `hello`; its files and the content shown.
pub fn hello_file()
    ensures { Gives hello_stream hello_output }
{}

/// Grafts into no files: a folder, a file, and all files of a commit; one that finds nothing; and
/// one that puts back what is there.
pub fn grafts()
    ensures folder { GraftMakes (codes "dep") (codes "lib")
        ((codes "dep/x", content (codes "1")) ∷ (codes "dep/y/z", content (codes "2")) ∷ []) }
    ensures file { GraftMakes (codes "a") (codes "lib/x")
        ((codes "a", content (codes "1")) ∷ []) }
    ensures whole { GraftMakes (codes "a") []
        ((codes "a/lib/x", content (codes "1")) ∷ (codes "a/lib/y/z", content (codes "2")) ∷ []) }
    ensures nothing { IsTrue (grafts_nothing (Graft (codes "a") (codes "nope") lib_files)) }
    ensures same { edited lib_files (Graft (codes "lib") (codes "lib") lib_files) ≡ lib_files }
    ensures line { parts_text (edit_parts (GraftLine (codes "dep") (codes "main") (codes "lib")))
        ≡ lines (codes "graft 3 main 3" ∷ codes "dep" ∷ codes "lib" ∷ []) }
{}

/// What begins with no command: a word that is none, the longest line, a longer line, and a command
/// that is cut short.
pub fn refusals()
    ensures hello { Refuses (line (codes "hello")) (line (codes "refused Syntax")) }
    ensures longest { Refuses (line (xs max_line)) (line (codes "refused Syntax")) }
    ensures too_long { Refuses (xs (max_line + 1)) (line (codes "refused LineTooLong")) }
    ensures cut_short { Refuses (line (codes "commit refs/heads/main new"))
        (line (codes "refused Truncated")) }
{}

/// An empty stream has an empty output.
pub fn empty_stream()
    ensures { Gives [] [] }
{}
