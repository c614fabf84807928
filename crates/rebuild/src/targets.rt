// The target of a rebuild: whether it has pages enough is known before its first byte is written.
ghost use Rattle.std.specs.Prelude.{◌≡◌, true, ◌≤◌};
ghost use Rattle.image.specs.Images.{length_ok};
ghost use Rattle.image.specs.Sound.{sound_before};
ghost use Rattle.calls.specs.Numbers.{status_of};
ghost use Rattle.rebuild.specs.Rebuild.{Fills};

use crate::images::write_tight;
use crate::sizes::tree_size;
use access::heads::open_head;
use access::lengths::page_count;
use calls::refusals::Refusal;
use listing::passes::count_known_runs;
use rule::limits::END;

// Writes the tight image of a source that is sound by document 01's rule over the target, unless it has too few pages for it: 24. A sound
// source has a fit head, so that there is one to take. No page is checked here: the audit has found every one fit, and a
// second check was a sixth of a rebuild's time.
pub fn fill_target(half: usize, source: &[u8], target: &mut [u8]) -> Result<(), Refusal>
    requires capacity_bounds { (2 ≤ half) × (half ≤ 12) }
    requires sound_source { (sound_before half source.now ≡ true) × (length_ok half target.old ≡ true) }
    ensures { Fills half source.now target.old (status_of result) target.new }
{
    let h = open_head(half, source).unwrap();
    let runs = count_known_runs(half, source, h, 0, END);
    let tree = tree_size(half, runs);
    if page_count(half, target) <= tree.pages as usize {
        return Err(Refusal::PagesLacking);
    }
    write_tight(half, source, h, target, runs, tree);
    Ok(())
}
