//! What is written of a play: the text of its report, and what is noted in the trails.
ghost use Rattle.std.specs.Prelude.{◌≡◌, ◌+◌, ◌*◌, ◌<◌, ◌≤◌, length};
ghost use Rattle.std.specs.Option.{option_to_list};
ghost use Rattle.std.proofs.Math.Seq.{paste};
ghost use Rattle.trails.specs.Held.{all_put};
ghost use Rattle.trails.specs.Meaning.{held};
ghost use Rattle.schedule.specs.Limits.{most_events};
ghost use Rattle.play.specs.Account.{Same};

use crate::entries::{GrantEntry, RefusalEntry};
use crate::event::{LINE, Written};
use trails::Trail;

/// The bytes of the longest report: 16,384 lines of twelve bytes, and the end line.
pub const REPORT_BYTES: usize = 196_628;

/// Where a play is written to.
#[derive(Drop)]
pub(crate) struct Account<'a, 'g, 'r> {
    pub(crate) out: &'a mut [u8; REPORT_BYTES],
    pub(crate) grants: &'a mut Trail<'g, GrantEntry>,
    pub(crate) refusals: &'a mut Trail<'r, RefusalEntry>,
}

// Writes bytes at a place of the text.
pub(crate) fn write_at(out: &mut [u8; REPORT_BYTES], at: usize, bytes: &[u8])
    requires { at + length bytes.now ≤ REPORT_BYTES }
    ensures long { length out.old ≡ REPORT_BYTES }
    ensures text { out.new ≡ paste out.old at bytes.now (length bytes.now) }
{
    out[at..at + bytes.len()].copy_from_slice(bytes);
}

// Notes what there is to note.
fn note<T: Copy>(trail: &mut Trail<'_, T>, entry: Option<T>)
    ensures held { held trail.new ≡ all_put (held trail.old) (option_to_list entry) }
    ensures name { trail.new.slots.ghost_name ≡ trail.old.slots.ghost_name }
{
    if let Some(entry) = entry {
        trail.put(entry);
    }
}

impl Account<'_, '_, '_> {
    // Writes what event i came to: its line, and what is noted of it.
    pub(crate) fn write(&mut self, i: usize, x: Written)
        requires { i < most_events }
        ensures long { length self.old.out.now ≡ REPORT_BYTES }
        ensures text { self.new.out.now ≡ paste self.old.out.now (LINE * i) x.line LINE }
        ensures grants { held self.new.grants.now ≡ all_put (held self.old.grants.now) (option_to_list x.grant) }
        ensures refusals { held self.new.refusals.now ≡ all_put (held self.old.refusals.now) (option_to_list x.refusal) }
        ensures same { Same self.old self.new }
    {
        write_at(self.out, LINE * i, &x.line);
        note(self.grants, x.grant);
        note(self.refusals, x.refusal);
    }
}
