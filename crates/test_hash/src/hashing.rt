use rpo_hash::{
    ParamCause, ParamError, Params, Sponge, before_roots, digest_of, known_constants, next_line,
    parameter_laws, permutation_laws, permute, round, sponge_laws, types_cross,
};
use std::alloc::{AllocError, Global};
use std::test::Fail;
use vm_field::{Felt, Word, roots7};

mod constants;

use constants::{FIRST, SECOND};

fn elements<const N: usize>(numbers: &[u64; N]) -> [Felt; N] {
    let mut elements = [Felt::ZERO; N];
    for i in 0..N {
        elements[i] = Felt::try_from_u64(numbers[i]).unwrap_or(Felt::ZERO);
    }
    elements
}

fn rows(numbers: &[[u64; 12]; 7]) -> [[Felt; 12]; 7] {
    let mut rows = [[Felt::ZERO; 12]; 7];
    for k in 0..7 {
        rows[k] = elements(&numbers[k]);
    }
    rows
}

fn params() -> Params {
    Params {
        first: rows(&FIRST),
        second: rows(&SECOND),
    }
}

macro_rules! permuted {
    ($([$($before:literal)*] => [$($behind:literal)*];)*) => {
        [$(([$($before),*], [$($behind),*])),*]
    };
}

macro_rules! block {
    ($($number:literal)*) => {
        [$($number),*]
    };
}

// A state, and its permutation.
static PERMUTED: [([u64; 12], [u64; 12]); 2] = permuted! {
    [10749352002528537655 10843009251764209163 11495143032008580181 18301641387332461172 11624568837279064424 7127865225997486553 6499482958500595824
        11142306567923385846 11028386390254802633 12125459652032004980 4988386218826836138 3111215223413308936]
        => [13123496921222757827 13815907551689991028 3250154297776989831 9264625060845586343 13505678517068342313 12064079061814290003
            16267451862392791075 5179939492678981313 17924628120276752707 8057948108201147474 345960607691156395 18015331557726174570];
    [17134264855823936987 4986844577970114201 15105232661847967384 14956095329361193290 3678080495154005590 915155745325911649 2734218328011946767
        9583822107388220733 16836342650964218284 18087473187740293025 10548384330300381115 6373958956083870158]
        => [8589490983030892174 196437560860126820 3751653829622489294 1436285952929529052 14332354892477482088 4446275487835997557 17764694728498826479
            9986547793232080062 9518490385571118559 15603366963079885369 7007447332371556495 15499868163378381025];
};

fn by_rounds(params: &Params, state: [Felt; 12]) -> [Felt; 12] {
    let mut state = state;
    for k in 0..7 {
        state = round(params, k, &state);
    }
    state
}

fn permutes(params: &Params, rows: &[([u64; 12], [u64; 12])]) -> bool {
    for (state, want) in rows {
        let state = elements(state);
        let want = elements(want);
        if permute(params, state) != want || by_rounds(params, state) != want {
            return false;
        }
    }
    true
}

fn takes_roots(params: &Params) -> bool {
    let state = [Felt::ONE; 12];
    roots7(&before_roots(params, 6, &state)) == round(params, 6, &state)
}

#[test]
fn permutes_as_computed_outside(rt: HostRuntime) {
    let params = params();
    known_constants(&params);
    assert!(rt; permutes(&params, &PERMUTED));
    assert!(rt; takes_roots(&params));
}

static BLOCK: [u64; 8] = block! {
    11916664404395588433 4297782753165578140 15444437505490005050 16909490220865723038 9069493015140766571 12493408149767034675 3450998659642969518
    14566103814972430096
};

static DIGEST: &str = "bcdce31eb18233cc6f18538ee2bd2993c837edc03ac94f2b61b7271de1a00c7f";

static FIRST_BLOCK: [u64; 8] = block! {
    14936167277499773911 17279652523923771030 1862032940748624296 18081284065981704091 17435994189103282951 4375335865000097889 9053558918024070571
    15967034587983209325
};

static SECOND_BLOCK: [u64; 8] = block! {
    7283285812762733884 11142513275646157830 12112514900090429272 11610116037344505290 6792972231997141983 5137564332060931455 17040387408390650443
    13167788290073161006
};

// Of domain 72, and both blocks.
static DIGEST_OF_TWO: &str = "f0de15e511f63008682ddc605b26c4ec24ab13fd90e5c135bd430d12dbcfe2f8";

fn writes(digest: &Word, text: &str) -> bool {
    Word::from_hex(text.as_bytes()) == Some(*digest)
}

fn of_one(params: &Params) -> Word {
    digest_of(params, Felt::ZERO, &[elements(&BLOCK)])
}

fn of_two(params: &Params) -> Word {
    let blocks = [elements(&FIRST_BLOCK), elements(&SECOND_BLOCK)];
    digest_of(params, Felt::from_u32(72), &blocks)
}

fn by_sponge(params: &Params) -> Word {
    let mut sponge = Sponge::begin(Felt::from_u32(72));
    sponge.absorb(params, &elements(&FIRST_BLOCK));
    sponge.absorb(params, &elements(&SECOND_BLOCK));
    sponge.digest()
}

#[test]
fn digests_as_computed_outside(rt: HostRuntime) {
    let params = params();
    assert!(rt; writes(&of_one(&params), DIGEST));
    assert!(rt; writes(&of_two(&params), DIGEST_OF_TWO));
    assert!(rt; by_sponge(&params) == of_two(&params));
}

// Lines `0`, but for one.
fn zeros(alloc: Global, count: u32, line: u32, text: &[u8]) -> Result<Vec<u8>, AllocError> {
    let mut bytes = Vec::new(alloc);
    for k in 0..count {
        bytes.extend_from_slice(if k + 1 == line { text } else { b"0\n" })?;
    }
    Ok(bytes)
}

// The permutation of zeros under constants that are 0 but for the fifth of the last round's second ones.
fn permuted_zeros(text: &[u8]) -> Option<[Felt; 12]> {
    let params = Params::read(text).ok()?;
    Some(permute(&params, [Felt::ZERO; 12]))
}

#[test]
fn reads_constants(rt: HostRuntime) -> Result<(), Fail> {
    let text = zeros(rt.alloc(), 168, 161, b"128\n")?;
    assert!(rt;
        permuted_zeros(text.as_slice()) == Some(elements(&[0, 0, 0, 0, 2, 0, 0, 0, 0, 0, 0, 0]))
    );
    Ok(())
}

// How many lines there are, one that is no `0`, and what is refused.
static REFUSED: [(u32, u32, &[u8], u32, ParamCause); 9] = [
    (0, 1, b"", 1, ParamCause::Ended),
    (167, 0, b"", 168, ParamCause::Ended),
    (168, 5, b"01\n", 5, ParamCause::Number),
    (168, 1, b"0\r\n", 1, ParamCause::Number),
    (168, 168, b"0", 168, ParamCause::Number),
    (168, 7, b"\n", 7, ParamCause::Number),
    (168, 24, b"18446744069414584321\n", 24, ParamCause::Number),
    (169, 0, b"", 169, ParamCause::Extra),
    (169, 169, b"\n", 169, ParamCause::Extra),
];

fn refuses(alloc: Global, rows: &[(u32, u32, &[u8], u32, ParamCause)]) -> Result<bool, AllocError> {
    for (count, at, text, line, cause) in rows {
        let bytes = zeros(alloc, *count, *at, text)?;
        let error = ParamError {
            line: *line,
            cause: *cause,
        };
        if Params::read(bytes.as_slice()) != Err(error) {
            return Ok(false);
        }
    }
    Ok(true)
}

fn prints(alloc: Global) -> Result<bool, AllocError> {
    let error = ParamError {
        line: 5,
        cause: ParamCause::Number,
    };
    Ok(format!(in alloc; "{error}")?.as_str() == "line 5 Number")
}

#[test]
fn names_the_first_wrong_line(rt: HostRuntime) -> Result<(), Fail> {
    assert!(rt; refuses(rt.alloc(), &REFUSED)?);
    assert!(rt; prints(rt.alloc())?);
    Ok(())
}

fn splits(text: &[u8]) -> Option<(usize, usize)> {
    let (line, rest) = next_line(text)?;
    Some((line.len(), rest.len()))
}

#[test]
fn ends_lines(rt: HostRuntime) {
    assert!(rt; splits(b"ab\n\nc") == Some((2, 2)) && splits(b"c").is_none());
}

#[test]
fn states_laws() {
    parameter_laws();
    permutation_laws();
    sponge_laws();
    types_cross();
}
