//! Three-field notation that no command line has or shows: other environments, and bytes that no
//! argument holds.
use std::alloc::Global;
use tf_model::problem::{Env, Goal, Problem};
use tf_notation::reading::{NotationFault, read};
use tf_notation::writing::notation_text;

/// Texts, and the environment and the number of machines of each.
const ENVIRONMENTS: &[(&str, Env, Option<u32>)] = &[
    ("Q||Cmax", Env::Uniform, None),
    ("Qm||Cmax", Env::Uniform, None),
    ("Q9||Cmax", Env::Uniform, Some(9)),
    ("R||Cmax", Env::Unrelated, None),
    ("Rm||Cmax", Env::Unrelated, None),
    ("R10||Cmax", Env::Unrelated, Some(10)),
    ("J||Cmax", Env::JobShop, None),
    ("Jm||Cmax", Env::JobShop, None),
    ("J100||Cmax", Env::JobShop, Some(100)),
    ("O99||Cmax", Env::OpenShop, Some(99)),
];

/// Texts with the byte that isn't expected.
const FAULTS: &[(&[u8], usize)] = &[
    (b"1||Lmax\n", 7),
    (b"\x001||Lmax", 0),
    (b"1||Lmax\x00", 7),
    (b"1\xff||Lmax", 1),
    (b"1||Lmax\xff", 7),
];

/// The text is read as a problem of this environment, and nothing else.
fn is_read(text: &str, env: Env, count: Option<u32>) -> bool {
    let wanted = Problem {
        count,
        ..Problem::plain(env, Goal::Cmax)
    };
    read(text.as_bytes()) == Ok(wanted)
}

/// The text has its first fault at this byte.
fn is_fault_at(text: &[u8], byte: usize) -> bool {
    read(text) == Err(NotationFault { byte })
}

#[test]
fn a_text_is_read_or_has_its_first_fault(rt: HostRuntime) {
    for (text, env, count) in ENVIRONMENTS {
        assert!(rt; is_read(text, *env, *count), "{text}");
    }
    for (text, byte) in FAULTS {
        assert!(rt; is_fault_at(text, *byte));
    }
}

/// The text of this problem is written so.
fn is_written(alloc: Global, problem: &Problem, wanted: &str) -> bool {
    match notation_text(alloc, problem) {
        Ok(text) => text.as_str() == wanted,
        Err(_) => false,
    }
}

#[test]
fn a_problem_is_written_in_its_canonical_text(rt: HostRuntime) {
    let mut counted = Problem::plain(Env::JobShop, Goal::Cmax);
    counted.count = Some(3);
    assert!(rt; is_written(rt.alloc(), &counted, "J3||Cmax"));
    // a count of machines beside the single machine is left out
    counted.env = Env::Single;
    assert!(rt; is_written(rt.alloc(), &counted, "1||Cmax"));
}
