//! Small networks with the most that any tolls earn there, which `tests/searches.py` finds by trying all tolls over a common
//! denominator.

use crate::found::values;
use npp_frac::{Exact, Frac32, Frac64, Frac128};
use npp_search::{BestBound, Depth};
use std::alloc::Global;
use std::process::Abort;
use std::test::Fail;

/// Networks, each with twice the number of choices less one, and with the optimum.
const NETWORKS: &[(&str, u32, &str)] = &[
    (
        "npp 1\nnode a\nnode b\nnode c\nnode p\nnode q\nnode r\ntoll a b 0\nfree a b 5\ntoll b c 1\nfree p b 1\nfree p c 7\nfree q a 0\nfree q c 9\nfree r b 1\nfree r c 3\npair p c 2\npair q c 1\npair r c 1\n",
        23,
        "18",
    ),
    (
        "npp 1\nnode a\nnode b\nnode p\nnode q\nnode r\ntoll a b 1\nfree p a 0\nfree p b 3\nfree q a 1\nfree q b 8\nfree r a 1\nfree r b 6\npair p b 2\npair q b 1\npair r b 4\n",
        15,
        "20",
    ),
    (
        "npp 1\nnode a\nnode b\nnode c\nnode p\nnode q\nnode r\ntoll a b 2\nfree a b 4\ntoll b c 0\nfree b c 4\nfree p b 1\nfree p c 8\nfree q a 0\nfree q b 6\nfree r a 0\nfree r c 3\npair p c 5\npair q b 3\npair r c 5\n",
        15,
        "26",
    ),
    (
        "npp 1\nnode a\nnode b\nnode c\nnode p\nnode q\nnode r\ntoll a b 2\ntoll b c 0\nfree b c 3\nfree p a 0\nfree p b 3\nfree q a 0\nfree q c 6\nfree r a 0\nfree r c 3\npair p b 5\npair q c 2\npair r c 3\n",
        23,
        "13",
    ),
    (
        "npp 1\nnode a\nnode b\nnode c\nnode p\nnode q\nnode r\ntoll a b 1\nfree a b 3\ntoll b c 1\nfree b c 4\nfree p a 0\nfree p b 5\nfree q b 1\nfree q c 3\nfree r b 0\nfree r c 9\npair p b 3\npair q c 2\npair r c 5\n",
        15,
        "21",
    ),
    (
        "npp 1\nnode a\nnode b\nnode p\nnode q\nnode r\ntoll a b 0\nfree p a 0\nfree p b 4\nfree q a 0\nfree q b 8\nfree r a 0\nfree r b 7\npair p b 1\npair q b 1\npair r b 4\n",
        15,
        "35",
    ),
    (
        "npp 1\nnode a\nnode b\nnode c\nnode p\nnode q\nnode r\ntoll a b 0\ntoll b c 1\nfree b c 4\nfree p b 0\nfree p c 9\nfree q a 0\nfree q c 4\nfree r a 0\nfree r c 3\npair p c 2\npair q c 3\npair r c 5\n",
        15,
        "20",
    ),
    (
        "npp 1\nnode a\nnode b\nnode c\nnode p\nnode q\ntoll a b 1\nfree a b 4\ntoll b c 1\nfree b c 5\nfree p a 0\nfree p c 3\nfree q b 0\nfree q c 9\npair p c 1\npair q c 3\n",
        7,
        "12",
    ),
    (
        "npp 1\nnode a\nnode b\nnode p\nnode q\nnode r\ntoll a b 2\nfree p a 1\nfree p b 6\nfree q a 1\nfree q b 4\nfree r a 1\nfree r b 7\npair p b 2\npair q b 2\npair r b 1\n",
        15,
        "9",
    ),
    (
        "npp 1\nnode a\nnode b\nnode c\nnode p\nnode q\ntoll a b 1\nfree a b 3\ntoll b c 0\nfree b c 2\nfree p a 1\nfree p c 4\nfree q a 0\nfree q c 8\npair p c 4\npair q c 4\n",
        15,
        "16",
    ),
    (
        "npp 1\nnode a\nnode b\nnode c\nnode d\nnode p\nnode q\nnode r\ntoll a b 2\nfree a b 2\ntoll b c 1\ntoll c d 0\nfree c d 3\nfree p a 1\nfree p c 9\nfree q b 0\nfree q c 3\nfree r b 0\nfree r d 9\npair p c 2\npair q c 2\npair r d 4\n",
        23,
        "42",
    ),
    (
        "npp 1\nnode a\nnode b\nnode c\nnode d\nnode p\nnode q\nnode r\ntoll a b 2\nfree a b 3\ntoll b c 0\nfree b c 2\ntoll c d 2\nfree p a 1\nfree p d 8\nfree q b 0\nfree q d 3\nfree r a 1\nfree r c 8\npair p d 1\npair q d 5\npair r c 3\n",
        63,
        "13",
    ),
    (
        "npp 1\nnode a\nnode b\nnode c\nnode d\nnode p\nnode q\ntoll a b 1\nfree a b 4\ntoll b c 0\nfree b c 4\ntoll c d 1\nfree c d 2\nfree p a 0\nfree p c 9\nfree q a 1\nfree q c 7\npair p c 3\npair q c 5\n",
        31,
        "40",
    ),
    (
        "npp 1\nnode a\nnode b\nnode c\nnode d\nnode p\nnode q\nnode r\ntoll a b 1\nfree a b 5\ntoll b c 1\ntoll c d 0\nfree c d 2\nfree p b 1\nfree p d 4\nfree q c 0\nfree q d 4\nfree r b 1\nfree r c 4\npair p d 3\npair q d 5\npair r c 4\n",
        15,
        "18",
    ),
    (
        "npp 1\nnode x\nnode y\nnode z\ntoll x y 0\ntoll y z 0\ntoll z x 0\nfree x z 1\nfree y x 1\nfree z y 1\npair x z 1\npair y x 1\npair z y 1\n",
        15,
        "3",
    ),
    (
        "npp 1\nnode x\nnode y\nnode z\ntoll x y 0\ntoll y z 0\ntoll z x 0\nfree x z 1\nfree y x 2\nfree z y 2\npair x z 1\npair y x 1\npair z y 1\n",
        15,
        "5",
    ),
    (
        "npp 1\nnode x\nnode y\nnode z\ntoll x y 0\ntoll y z 0\ntoll z x 0\nfree x z 1\nfree y x 1\nfree z y 3\npair x z 1\npair y x 1\npair z y 1\n",
        15,
        "4",
    ),
    (
        "npp 1\nnode x\nnode y\nnode z\ntoll x y 0\ntoll y z 0\ntoll z x 0\nfree x z 1\nfree y x 3\nfree z y 5\npair x z 4\npair y x 1\npair z y 1\n",
        15,
        "11",
    ),
    (
        "npp 1\nnode x\nnode y\nnode z\ntoll x y 0\ntoll y z 0\ntoll z x 0\nfree x z 1\nfree y x 1\nfree z y 1\npair x z 10\npair y x 10\npair z y 10\nfree x y 1\npair x y 1\n",
        31,
        "61/2",
    ),
];

/// Whether a search with this budget ends with the optimum, with each picker.
fn expect<N: Exact>(
    rt: &impl Abort,
    alloc: Global,
    text: &str,
    budget: u32,
    want: &str,
) -> Result<(), Fail> {
    let found = values::<N, BestBound>(alloc, text, budget, &mut BestBound)?;
    assert_eq!(rt; found.as_str(), want);
    let found = values::<N, Depth>(alloc, text, budget, &mut Depth)?;
    assert_eq!(rt; found.as_str(), want);
    Ok(())
}

#[test]
fn the_optimum_is_found(rt: HostRuntime) -> Result<(), Fail> {
    let alloc = rt.alloc();
    for (text, budget, most) in NETWORKS {
        let want = format!(in alloc; "optimal {most} {most}")?;
        expect::<Frac32>(&rt, alloc, text, *budget, &want)?;
        expect::<Frac64>(&rt, alloc, text, *budget, &want)?;
        expect::<Frac128>(&rt, alloc, text, *budget, &want)?;
    }
    Ok(())
}
