use perm_memo::Permutations;
use rpo_hash::{Params, permute, round};
use vm_field::Felt;

fn params(first: Felt) -> Params {
    let mut params = Params {
        first: [[Felt::ZERO; 12]; 7],
        second: [[Felt::ZERO; 12]; 7],
    };
    params.first[0] = [first; 12];
    params.second[6][5] = first;
    params
}

// A state that begins with this number.
fn state(number: u32) -> [Felt; 12] {
    let mut state = [Felt::ONE; 12];
    state[0] = Felt::from_u32(number);
    state
}

fn permutes(permutations: &mut Permutations, number: u32) -> bool {
    let params = *permutations.params();
    let state = state(number);
    let states = permutations.rounds(&state);
    permutations.permuted(&state) == permute(&params, state)
        && states[0] == state
        && states[1] == round(&params, 0, &state)
        && states[7] == permute(&params, state)
}

// Each state comes twice, and more come than a table begins with.
fn permutes_all(mut permutations: Permutations) -> bool {
    for _turn in 0..2 {
        for number in 0..200 {
            if !permutes(&mut permutations, number) {
                return false;
            }
        }
    }
    true
}

#[test]
fn permutes_as_without_a_table(rt: HostRuntime) {
    let other = params(Felt::from_u32(128));
    assert!(rt; permutes_all(Permutations::new(rt.alloc(), &params(Felt::ZERO))));
    assert!(rt; permutes_all(Permutations::new(rt.alloc(), &other)));
    assert!(rt; permutes_all(Permutations::keeping_none(rt.alloc(), &other)));
}
