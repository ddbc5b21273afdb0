//! Pages of results, as they are written.

use bstr::BStr;
use std::alloc::{AllocError, Global};
use std::fmt::{self, Write};

/// A text that grows, and remembers whether a growth was refused.
#[derive(Drop)]
pub struct Page {
    text: String,
    full: bool,
}

impl Page {
    /// An empty page.
    pub fn new(alloc: Global) -> Page {
        Page {
            text: String::new(alloc),
            full: false,
        }
    }

    /// Adds text as it is.
    pub fn text(&mut self, text: &str) {
        if self.text.push_str(text).is_err() {
            self.full = true;
        }
    }

    /// Adds a word, after a space unless it is the first.
    pub fn word(&mut self, word: &str) {
        if !self.text.is_empty() {
            self.text(" ");
        }
        self.text(word);
    }

    /// Adds a value as it is displayed.
    pub fn put<T: fmt::Display + Drop>(&mut self, value: T) {
        if write!(&mut self.text, "{value}").is_err() {
            self.full = true;
        }
    }

    /// Adds a value by its name.
    pub fn name<T: fmt::Debug + Drop>(&mut self, value: T) {
        if write!(&mut self.text, "{value:?}").is_err() {
            self.full = true;
        }
    }

    /// Adds a value as a word.
    pub fn value<T: fmt::Display + Drop>(&mut self, value: T) {
        self.word("");
        self.put(value);
    }

    /// Adds a value between two texts.
    pub fn put_between<T: fmt::Display + Drop>(&mut self, before: &str, value: T, behind: &str) {
        self.text(before);
        self.put(value);
        self.text(behind);
    }

    /// Adds a number in octal digits.
    pub fn octal(&mut self, number: u16) {
        if write!(&mut self.text, "{number:o}").is_err() {
            self.full = true;
        }
    }

    /// Adds bytes in hexadecimal digits.
    pub fn hex(&mut self, bytes: &[u8]) {
        for byte in bytes {
            self.two_digits(*byte);
        }
    }

    fn two_digits(&mut self, byte: u8) {
        self.digit(byte / 16);
        self.digit(byte % 16);
    }

    fn digit(&mut self, digit: u8) {
        self.put(char::from_digit(u32::from(digit), 16).unwrap_or('?'));
    }

    /// Adds bytes as a word has them: each as it is or, if that would be taken for something else,
    /// as `%` and two digits.
    pub fn bytes(&mut self, bytes: &[u8]) {
        match bytes {
            b"" => self.text("-"),
            b"-" => self.text("%2d"),
            _ => {
                for byte in bytes {
                    self.byte(*byte);
                }
            }
        }
    }

    fn byte(&mut self, byte: u8) {
        if byte.is_ascii_alphanumeric() || b"/.@<>_-".contains(&byte) {
            self.put(char::from(byte));
        } else {
            self.text("%");
            self.two_digits(byte);
        }
    }

    /// Adds a name, a colon and bytes as a word.
    pub fn named(&mut self, name: &str, bytes: &[u8]) {
        self.word(name);
        self.text(":");
        self.bytes(bytes);
    }

    /// Adds bytes as a text: `\n` for a line feed, `\\` for a backslash, and `\x` and two digits
    /// for what isn't printable ASCII.
    pub fn escaped(&mut self, bytes: &[u8]) {
        for byte in bytes {
            self.escaped_byte(*byte);
        }
    }

    fn escaped_byte(&mut self, byte: u8) {
        match byte {
            b'\n' => self.text("\\n"),
            b'\\' => self.text("\\\\"),
            b' '..=b'~' => self.put(char::from(byte)),
            _ => {
                self.text("\\x");
                self.two_digits(byte);
            }
        }
    }

    /// Adds bytes as `escaped` does, between two texts.
    pub fn between(&mut self, before: &str, bytes: &[u8], behind: &str) {
        self.text(before);
        self.escaped(bytes);
        self.text(behind);
    }

    /// Adds the same, or `none` between the two.
    pub fn told(&mut self, before: &str, bytes: Option<BStr<'_>>, behind: &str) {
        match bytes {
            Some(bytes) => self.between(before, bytes.as_bytes(), behind),
            None => {
                self.text(before);
                self.text("none");
                self.text(behind);
            }
        }
    }

    /// Adds why something is refused.
    pub fn refused<T: fmt::Debug + Drop>(&mut self, error: T) {
        self.text("refused ");
        self.name(error);
    }

    /// Adds a text, and whether a test passes.
    pub fn test(&mut self, text: &str, passes: bool) {
        self.text(text);
        self.text(if passes { "+" } else { "-" });
    }

    /// Adds another page.
    pub fn add(&mut self, other: &Page) {
        self.text(other.text.as_str());
        self.full = self.full || other.full;
    }

    /// The text so far.
    pub fn as_str(&self) -> &str {
        self.text.as_str()
    }

    /// The text; `AllocError` if a growth was refused.
    pub fn finish(self) -> Result<String, AllocError> {
        if self.full {
            return Err(AllocError);
        }
        Ok(self.text)
    }
}
