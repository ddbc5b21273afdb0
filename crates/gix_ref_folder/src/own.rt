//! A value that only this crate's proofs can name.
//! So they alone open what is supposed of a folder.

enum Own {
    Proof,
}
