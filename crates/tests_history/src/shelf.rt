// Bytes under a lock, to which two threads append.
ghost use Rattle.std.specs.Prelude.{◌≡◌, ◌++◌, ◌∷◌, [], IfOk, OnErr};
ghost use Rattle.history.specs.Entries.{entry, Extends, IsCoherent};
ghost use Rattle.tests_history.specs.Calls.{appended, AreOneRun, AppendsAll};

use history::{Chronicle, Hand, History, Keeper, Opened, Says};
use std::alloc::{AllocError, Global};
use std::marker::{Brand, Model};
use std::process::Abort;
use std::sync::{Mutex, Wait};
use std::thread::{Threads, join};

// What stands in the history. It exists in proofs alone.
struct Call {}

impl Model for Call {
    ghost use Rattle.std.specs.Prelude.{[]};
    ghost use Rattle.tests_history.specs.Calls.{Appended};

    ghost Value = { Appended };

    ghost view = { λ _. record { item = []; place = 0 } };
}

struct Appends;

impl<'a> Says<(&'a [u8], u64), Call> for Appends {
    ghost what = { λ x. appended x.0.now x.1 };
}

// Bytes, and the keeper of their history.
#[derive(Drop)]
struct Shelf<N: Chronicle> {
    bytes: Vec<u8>,
    keeper: Keeper<N, Call>,
}

impl<N: Chronicle> Model for Shelf<N> {
    ghost use Rattle.std.specs.Prelude.{[]};
    ghost use Rattle.tests_history.specs.Calls.{AppendsAll, Shelved};

    ghost Value = { Shelved };

    ghost view = { λ s. record { bytes = s.bytes.items; course = s.keeper } };

    ghost invariant = { λ s. AppendsAll [] s.keeper.log s.bytes.items };
}

impl<N: Chronicle> Shelf<N> {
    // Appends, and returns where.
    fn append(
        &mut self,
        history: &History<N, Call>,
        me: &mut Hand<N, Call>,
        item: &[u8],
    ) -> Result<u64, AllocError>
        ensures bytes { IfOk result (λ place. self.new.bytes ≡ self.old.bytes ++ item.now) }
        ensures called { IfOk result (λ place. Extends me.old (appended item.now place) me.new) }
        ensures err { OnErr result ((self.new ≡ self.old) × (me.new ≡ me.old)) }
    {
        let place = self.bytes.len() as u64;
        self.bytes.extend_from_slice(item)?;
        self.keeper
            .note::<(&[u8], u64), Appends>(history, me, &(item, place));
        Ok(place)
    }

    // How many hands were hired.
    fn hired(&self) -> u64
        ensures { result ≡ self.now.course.hired }
    {
        self.keeper.hired()
    }

    // The history is whole, as far as this hand can tell.
    fn check(&mut self, history: &History<N, Call>, me: &mut Hand<N, Call>)
        ensures same { (self.new ≡ self.old) × (me.new ≡ me.old) }
        ensures whole { IsCoherent self.old.course me.old }
        ensures runs { AppendsAll [] self.old.course.log self.old.bytes }
    {
        self.keeper.check(history, me);
    }

    fn into_bytes(self) -> Vec<u8>
        ensures { result.items ≡ self.bytes }
    {
        let Shelf { bytes, keeper: _ } = self;
        bytes
    }
}

// Two calls of one hand.
fn append_two<N: Chronicle, R: Abort + Wait>(
    rt: &R,
    history: &History<N, Call>,
    desk: &Mutex<Shelf<N>>,
    hand: Hand<N, Call>,
    items: (&[u8], &[u8]),
) -> (Hand<N, Call>, u64, u64)
    ensures { (result.0.number ≡ hand.number) × (result.0.mine ≡ (hand.mine ++ entry hand.number (appended items.entry.0.now result.1) ∷ [])
        ++ entry hand.number (appended items.entry.1.now result.2) ∷ []) }
{
    let mut me = hand;
    let Ok(first) = desk.lock(rt).append(history, &mut me, items.0) else {
        panic!(rt; "no memory")
    };
    let Ok(second) = desk.lock(rt).append(history, &mut me, items.1) else {
        panic!(rt; "no memory")
    };
    (me, first, second)
}

// Two threads append two items each, in any schedule. Returns the bytes, and where the items of each lie.
fn append_both<N: Chronicle + Send + Sync, R: Abort + Threads + Wait + Sync>(
    rt: &R,
    alloc: Global,
    opened: Opened<Call>,
    ones: (&[u8], &[u8]),
    twos: (&[u8], &[u8]),
) -> (Vec<u8>, (u64, u64), (u64, u64))
    requires { opened ≡ N.chronicle }
    ensures { AreOneRun (appended ones.entry.0.now result.1.0) (appended ones.entry.1.now result.1.1)
        (appended twos.entry.0.now result.2.0) (appended twos.entry.1.now result.2.1) result.0.items }
{
    let (history, mut keeper, one) = opened.named::<N>();
    let Some(two) = keeper.hire(&history) else {
        panic!(rt; "no second hand")
    };
    let bytes = Vec::new(alloc);
    let desk = Mutex::new(Shelf { bytes, keeper });
    let (x, y) = join(
        rt,
        || -> (Hand<N, Call>, u64, u64)
            requires { (one.number ≡ 0) × (one.mine ≡ []) }
            ensures { (result.0.number ≡ 0)
                × (result.0.mine ≡ entry 0 (appended ones.entry.0.now result.1) ∷ entry 0 (appended ones.entry.1.now result.2) ∷ []) }
        { append_two(rt, &history, &desk, one, ones) },
        || -> (Hand<N, Call>, u64, u64)
            requires { (two.number ≡ 1) × (two.mine ≡ []) }
            ensures { (result.0.number ≡ 1)
                × (result.0.mine ≡ entry 1 (appended twos.entry.0.now result.1) ∷ entry 1 (appended twos.entry.1.now result.2) ∷ []) }
        { append_two(rt, &history, &desk, two, twos) },
    );
    let (mut one, a, b) = x;
    let (mut two, c, d) = y;
    let mut shelf = desk.into_inner();
    assert!(rt; shelf.hired() == 2);
    shelf.check(&history, &mut one);
    shelf.check(&history, &mut two);
    (shelf.into_bytes(), (a, b), (c, d))
}

// Whether the item lies there.
fn lies_at(bytes: &[u8], place: u64, item: &[u8]) -> bool {
    match bytes.get(place as usize..) {
        Some(rest) => rest.starts_with(item),
        None => false,
    }
}

#[test]
fn each_item_lies_where_its_call_returned(rt: HostRuntime) {
    let Ok(opened) = Opened::new(rt.alloc()) else {
        panic!(rt; "no memory")
    };
    let (bytes, one, two) = append_both::<Brand, HostRuntime>(
        &rt,
        rt.alloc(),
        opened,
        (b"a", b"bcd"),
        (b"efghi", b"jk"),
    );
    assert!(rt; bytes.len() == 11);
    assert!(rt; one.0 < one.1 && two.0 < two.1);
    assert!(rt; lies_at(&bytes, one.0, b"a") && lies_at(&bytes, one.1, b"bcd"));
    assert!(rt; lies_at(&bytes, two.0, b"efghi") && lies_at(&bytes, two.1, b"jk"));
}
