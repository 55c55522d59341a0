ghost use Rattle.std.specs.Prelude.{◌≡◌, ◌<◌, Some, slice_get, slice_index};
ghost use Rattle.masm_tree.specs.Keywords.{text_of_keyword, keyword_of, slot, is_kept_from_kernels};

// A first part of a token that the grammar knows.
#[derive(Clone, Copy, Debug, PartialEq, Eq)]
pub(crate) enum Keyword {
    Const,
    Proc,
    Export,
    Begin,
    If,
    Else,
    While,
    Repeat,
    Exec,
    Call,
    Syscall,
    ProcRef,
    DynExec,
    End,
}

const KEYWORDS: [Keyword; 14] = [
    Keyword::Const,
    Keyword::Proc,
    Keyword::Export,
    Keyword::Begin,
    Keyword::If,
    Keyword::Else,
    Keyword::While,
    Keyword::Repeat,
    Keyword::Exec,
    Keyword::Call,
    Keyword::Syscall,
    Keyword::ProcRef,
    Keyword::DynExec,
    Keyword::End,
];

impl Keyword {
    fn text(self) -> &'static [u8]
        ensures { result.now ≡ text_of_keyword self }
    {
        match self {
            Keyword::Const => b"const",
            Keyword::Proc => b"proc",
            Keyword::Export => b"export",
            Keyword::Begin => b"begin",
            Keyword::If => b"if",
            Keyword::Else => b"else",
            Keyword::While => b"while",
            Keyword::Repeat => b"repeat",
            Keyword::Exec => b"exec",
            Keyword::Call => b"call",
            Keyword::Syscall => b"syscall",
            Keyword::ProcRef => b"procref",
            Keyword::DynExec => b"dynexec",
            Keyword::End => b"end",
        }
    }

    // Whether no kernel may have it.
    pub(crate) fn is_kept_from_kernels(self) -> bool
        ensures { result ≡ is_kept_from_kernels self }
    {
        matches!(
            self,
            Keyword::Begin | Keyword::Call | Keyword::Syscall | Keyword::ProcRef | Keyword::DynExec
        )
    }
}

// For each slot the place in `KEYWORDS` of the one keyword that may have it; 0 where there is none.
const SLOTS: [u8; 32] = [
    0, 5, 0, 0, 0, 0, 0, 0, 10, 0, 0, 0, 0, 8, 0, 7, 0, 0, 1, 6, 9, 2, 0, 4, 0, 12, 0, 3, 0, 0, 11,
    13,
];

// The byte at a place, and 0 behind the end.
fn byte_at(text: &[u8], place: usize) -> usize
    ensures byte { result ≡ slice_index text.now place }
    ensures bound { result < 256 }
{
    match text.get(place) {
        Some(byte) => usize::from(*byte),
        None => 0,
    }
}

// The slot of a text, by its length and its first two bytes. Those of the keywords are all different.
#[tactic(auto, unfolding(crate::specs::Keywords::slot))]
fn slot(text: &[u8]) -> usize
    ensures slot { result ≡ slot text.now }
    ensures bound { result < 32 }
{
    (byte_at(text, 0) + byte_at(text, 1) + 4 * (text.len() % 32)) % 32
}

fn keyword_at(keywords: &[Keyword], place: usize) -> Option<Keyword>
    ensures { result ≡ slice_get keywords.now place }
{
    keywords.get(place).copied()
}

// The keyword that has this text, if any keyword has it.
fn guess(text: &[u8]) -> Option<Keyword>
    ensures { (keyword : Keyword) → text_of_keyword keyword ≡ text.now → result ≡ Some keyword }
{
    keyword_at(&KEYWORDS, usize::from(SLOTS[slot(text)]))
}

// The keyword that has this text.
pub(crate) fn keyword_of(text: &[u8]) -> Option<Keyword>
    ensures { result ≡ keyword_of text.now }
{
    match guess(text) {
        Some(keyword) if keyword.text() == text => Some(keyword),
        _ => None,
    }
}
