//! The words of a run that may name a file.
ghost use Rattle.std.specs.Prelude.{◌≡◌};
ghost use Rattle.run_input.specs.FileWords.{is_file_word};

use edt_text::is_name;

/// The most bytes of a word that names a file.
const LONGEST_FILE_WORD: usize = 255;

/// Whether a word may name a file: it has 1 to 255 bytes from 33 to 126.
pub fn is_file_word(word: &[u8]) -> bool
    ensures { result ≡ is_file_word word.now }
{
    is_name(word, LONGEST_FILE_WORD)
}
