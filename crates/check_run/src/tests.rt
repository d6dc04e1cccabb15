ghost use Rattle.std.specs.Prelude.{IfOk};
ghost use Rattle.dep_graph.specs.Items.{HasItsSize};

use crate::{Checked, check_entries};
use driver_check::{CheckDriver, Driver};
use foz_entry::{Entry, stored_head};
use foz_words::{Key, NoMemory, Row};
use replay_core::Verdict;
use state_words::State;
use std::alloc::Global;
use std::mem::drop;
use std::process::Abort;
use std::test::Fail;

const LAYOUT: &[u8] = b"{\"pipelineLayouts\":{\"0000000000000003\":{}},\"version\":6}";

// A pipeline layout under (3, 4) of the set layout 2.
const SETS: &[u8] =
    b"{\"pipelineLayouts\":{\"0000000000000004\":{\"setLayouts\":[\"0000000000000002\"]}},\"version\":6}";

/// An entry of a case: the tag and the hash of its key, and its payload.
type Case = (u32, u64, &'static [u8]);

/// An undamaged entry.
fn entry(alloc: Global, key: Key, payload: &[u8]) -> Result<Entry, Fail>
    ensures { IfOk result HasItsSize }
{
    let size = u32::try_from(payload.len())?;
    Ok(Entry {
        offset: 0,
        head: stored_head(key, 0, size),
        payload: Row::from_vec(Vec::from_slice(alloc, payload)?),
    })
}

/// A driver that answers one more at each call.
#[derive(Drop)]
struct Counter {
    calls: u32,
}

impl Driver for Counter {
    ghost Meaning = { Unit {0} };

    ghost meaning = { λ driver. tt };

    ghost creates = { λ before key state code after. Unit {0} };

    fn create(&mut self, _alloc: Global, _key: Key, state: State) -> Result<u32, NoMemory> {
        drop(state);
        let code = self.calls;
        self.calls = code.saturating_add(1);
        Ok(code)
    }
}

/// Replays the entries of these cases.
fn checked<R: Driver>(alloc: Global, cases: &[Case], driver: &mut R) -> Result<Checked, Fail> {
    let mut entries = Vec::new(alloc);
    for (tag, hash, payload) in cases {
        let key = Key {
            tag: *tag,
            hash: *hash,
        };
        entries.push(entry(alloc, key, payload)?)?;
    }
    if entries.len() > 1_048_576 {
        return Err(Fail::new("too many entries"));
    }
    Ok(check_entries(alloc, &entries, driver)?)
}

fn verdicts_are(rt: &impl Abort, checked: &Checked, events: usize, wanted: &[Option<Verdict>]) {
    assert_eq!(rt; checked.core.verdicts(), wanted);
    assert_eq!(rt; checked.core.events().len(), events);
}

#[test]
fn nothing_is_replayed_of_an_empty_archive(rt: HostRuntime) -> Result<(), Fail> {
    let mut driver = CheckDriver::new(rt.alloc());
    let checked = checked(rt.alloc(), &[], &mut driver)?;
    verdicts_are(&rt, &checked, 0, &[]);
    Ok(())
}

const CASES: [Case; 3] = [(3, 3, LAYOUT), (3, 4, SETS), (3, 3, LAYOUT)];

#[test]
fn what_depends_on_nothing_is_given_to_the_driver_and_the_rest_is_missing(
    rt: HostRuntime,
) -> Result<(), Fail> {
    let mut driver = Counter { calls: 5 };
    let checked = checked(rt.alloc(), &CASES, &mut driver)?;
    let wanted = [Some(Verdict::Done(5)), Some(Verdict::Missing(0))];
    verdicts_are(&rt, &checked, 3, &wanted);
    assert_eq!(rt; driver.calls, 6);
    Ok(())
}
