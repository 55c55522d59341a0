ghost use Rattle.std.specs.Prelude.{◌≡◌};
ghost use Rattle.std.specs.List.{list_all};
ghost use Rattle.masm_tree.specs.Classify.{is_letter, is_name_byte, is_name};

// The case of the letters of a name.
#[derive(Clone, Copy, Debug, PartialEq, Eq)]
pub(crate) enum Case {
    Upper,
    Lower,
}

fn is_letter(case: Case, byte: u8) -> bool
    ensures { result ≡ is_letter case byte }
{
    match case {
        Case::Upper => matches!(byte, b'A'..=b'Z'),
        Case::Lower => matches!(byte, b'a'..=b'z'),
    }
}

fn is_name_byte(case: Case, byte: u8) -> bool
    ensures { result ≡ is_name_byte case byte }
{
    is_letter(case, byte) || matches!(byte, b'0'..=b'9') || byte == b'_'
}

fn are_name_bytes(case: Case, bytes: &[u8]) -> bool
    ensures { result ≡ list_all (is_name_byte case) bytes.now }
{
    bytes.iter().all(|byte| is_name_byte(case, *byte))
}

// Whether a text is a name of 1 to 100 bytes.
#[tactic(auto, unfolding(crate::specs::Classify::is_name))]
pub(crate) fn is_name(case: Case, text: &[u8]) -> bool
    ensures { result ≡ is_name case text.now }
{
    let Some((first, more)) = text.split_first() else {
        return false;
    };
    is_letter(case, *first) && more.len() < 100 && are_name_bytes(case, more)
}
