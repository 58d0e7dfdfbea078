//! The statements of the profile, each with its keyword.
ghost use Rattle.std.specs.Prelude.{◌≡◌, ◌&&◌, nat_lt, drop};
ghost use Rattle.text_terms.specs.Words.{words_of};
ghost use Rattle.edt_text.specs.WordCursor.{words_left};
ghost use Rattle.control_reader.specs.ControlLines as lines;
ghost use Rattle.control_reader.specs.ControlLines.{kind_of_words};
ghost use Rattle.control_reader.specs.Inside.NextFault.{includes_file};
ghost use Rattle.control_reader.specs.Inside.IncludeNames.{kind_includes};
ghost use Rattle.control_reader.specs.Keywords as keywords;
ghost use Rattle.control_reader.specs.Keywords.{statement_of, least_of};

use edt_text::Words;

/// A statement by its keyword.
#[derive(Clone, Copy, Debug, PartialEq, Eq)]
pub(crate) enum Statement {
    Locfiles,
    Locgrid,
    Locmeth,
    Locgau,
    Locsearch,
    Locphaseid,
    Locexclude,
    Locdelay,
    Localias,
    Control,
    Include,
    Edtnear,
    Edtbudget,
    Edtkernel,
    Edtlanes,
    Locgau2,
}

/// What kind of line a line is, by its first word.
#[derive(Clone, Copy)]
pub(crate) enum LineKind {
    /// Without words.
    Blank,
    /// Of a first word that begins with `#`.
    Comment,
    /// Of a keyword that isn't read. It is counted.
    Passed,
    /// Of a keyword of the profile.
    Of(Statement),
}

// Each keyword with its statement.
const KEYWORDS: [(&[u8], Statement); 16] = [
    (b"LOCFILES", Statement::Locfiles),
    (b"LOCGRID", Statement::Locgrid),
    (b"LOCMETH", Statement::Locmeth),
    (b"LOCGAU", Statement::Locgau),
    (b"LOCSEARCH", Statement::Locsearch),
    (b"LOCPHASEID", Statement::Locphaseid),
    (b"LOCEXCLUDE", Statement::Locexclude),
    (b"LOCDELAY", Statement::Locdelay),
    (b"LOCALIAS", Statement::Localias),
    (b"CONTROL", Statement::Control),
    (b"INCLUDE", Statement::Include),
    (b"EDTNEAR", Statement::Edtnear),
    (b"EDTBUDGET", Statement::Edtbudget),
    (b"EDTKERNEL", Statement::Edtkernel),
    (b"EDTLANES", Statement::Edtlanes),
    (b"LOCGAU2", Statement::Locgau2),
];

impl LineKind {
    /// Whether a line of this kind includes a file.
    pub(crate) fn includes_file(self) -> bool
        ensures { result ≡ kind_includes self }
    {
        match self {
            LineKind::Of(statement) => statement.includes_file(),
            _ => false,
        }
    }
}

impl Statement {
    /// The statement with this keyword, if it is one of the profile.
    pub(crate) fn of(keyword: &[u8]) -> Option<Statement>
        ensures { result ≡ statement_of keyword.now }
    {
        for (word, statement) in KEYWORDS {
            if keyword == word {
                return Some(statement);
            }
        }
        None
    }

    /// Whether the statement includes a file and stands in an included file, given the number of its file.
    pub(crate) fn is_nested(self, file: u32) -> bool
        ensures { result ≡ (includes_file self && nat_lt 0 file) }
    {
        self.includes_file() && file > 0
    }

    /// Whether the statement includes a file.
    pub(crate) fn includes_file(self) -> bool
        ensures { result ≡ includes_file self }
    {
        matches!(self, Statement::Include)
    }

    /// Whether the statement isn't read yet.
    pub(crate) fn is_not_yet(self) -> bool
        ensures { result ≡ keywords.is_not_yet self }
    {
        matches!(self, Statement::Locgau2)
    }

    /// How many words it needs after its keyword.
    pub(crate) fn least(self) -> usize
        ensures { result ≡ least_of self }
    {
        match self {
            Statement::Locgrid => 9,
            Statement::Localias => 8,
            Statement::Locmeth => 6,
            Statement::Locfiles | Statement::Locdelay => 4,
            Statement::Locgau2 => 3,
            Statement::Locphaseid | Statement::Locexclude | Statement::Control => 2,
            Statement::Locgau
            | Statement::Locsearch
            | Statement::Include
            | Statement::Edtnear
            | Statement::Edtbudget
            | Statement::Edtkernel
            | Statement::Edtlanes => 1,
        }
    }
}

/// The kind of a line, and a cursor over the words after its first one.
pub(crate) fn split_line(line: &[u8]) -> (LineKind, Words)
    ensures kind { result.0 ≡ kind_of_words (words_of line.now) }
    ensures words { words_left result.1 ≡ drop 1 (words_of line.now) }
{
    let mut words = Words::new(line);
    let kind = match words.next() {
        None => LineKind::Blank,
        Some(word) => kind_of_first(word),
    };
    (kind, words)
}

// The kind of a line that begins with this word.
fn kind_of_first(word: &[u8]) -> LineKind
    ensures { result ≡ lines.kind_of_first word.now }
{
    if word.first() == Some(&b'#') {
        return LineKind::Comment;
    }
    match Statement::of(word) {
        Some(statement) => LineKind::Of(statement),
        None => LineKind::Passed,
    }
}
