// How updates, estimates, references and factors move, subband by subband.
ghost use Rattle.std.specs.Prelude.{◌≡◌, cond, ℕ, ◌<◌, get_or};
ghost use Rattle.std.specs.Float.{nan};
ghost use Rattle.aec3_common.specs.Counts.{one_more};
ghost use Rattle.aec3_common.specs.Lists.{tab};
ghost use Rattle.correction_factors.specs.Factors.{factor_moved, erle_moved, subband_of, where_learning};
ghost use Rattle.correction_factors.specs.Steps.{LearningChanged, lesson_at, lesson_in, moved_in};

use crate::lessons::{Lesson, Lessons};
use aec3_common::counts::one_more;
use aec3_common::entries::change;
use aec3_common::{ErleLimits, clamp, moved};
use filter_sections::{max_erle, subband_bands};

// A factor moves after so many updates of its subband.
const MIN_UPDATES_FOR_CORRECTION: u32 = 50;

// In each subband, the entry of the section that learns, as a function makes it of the subband, of its place in the table and of what it was.
// One `change` of the whole table was tried, and a channel's update took nearly twice as many instructions.
fn change_learning<F: Fn(usize, usize, f32) -> f32>(table: &mut [f32; 48], lessons: &Lessons, f: F)
    requires callable { (s j : ℕ) (x : _) → s < 6 → j < 48 → F.pre f s j x }
    ensures { LearningChanged (F.post f) (λ s. (lesson_at lessons.now.subbands s).section) table.old table.new }
{
    for (s, lesson) in lessons.subbands.iter().enumerate() {
        let j = lesson.section * 6 + s;
        table[j] = f(s, j, table[j]);
    }
}

pub fn count_updates(updates: &mut [u32; 6], lessons: &Lessons)
    ensures { updates.new ≡ tab 6 (λ s. cond (lesson_at lessons.now.subbands s).updated (one_more (get_or updates.old s 0)) (get_or updates.old s 0)) }
{
    change(updates, 0, 6, |s, n| {
        if lessons.subbands[s].ratio.is_some() {
            one_more(n)
        } else {
            n
        }
    });
}

// A section's estimate, or the reference, with a subband's lesson: it moves by a share of the difference to the new ratio, and not at all
// where there is none.
#[tactic(auto, unfolding(crate::specs::Factors::erle_moved, crate::specs::Steps::moved_in))]
fn moved_erle(erle: f32, lesson: Lesson, limits: ErleLimits, s: usize) -> f32
    ensures { result ≡ moved_in limits.min limits.max_l limits.max_h s (lesson_in lesson) erle }
{
    let (new, share) = match lesson.ratio {
        Some(ratio) => (ratio, if ratio > erle { 0.05 } else { 0.1 }),
        None => (0.0, 0.0),
    };
    let max = max_erle(limits, subband_bands(s).start);
    clamp(moved(erle, new, share), limits.min, max)
}

pub fn move_references(references: &mut [f32; 6], limits: ErleLimits, lessons: &Lessons)
    ensures { references.new ≡ tab 6 (λ s. moved_in limits.min limits.max_l limits.max_h s (lesson_at lessons.now.subbands s) (get_or references.old s nan)) }
{
    change(references, 0, 6, |s, erle| {
        moved_erle(erle, lessons.subbands[s], limits, s)
    });
}

// The estimate of each subband's least active section.
pub fn move_estimates(estimates: &mut [f32; 48], limits: ErleLimits, lessons: &Lessons)
    ensures { estimates.new ≡ where_learning (λ s. (lesson_at lessons.now.subbands s).section) (λ j e. moved_in limits.min limits.max_l limits.max_h (subband_of j) (lesson_at lessons.now.subbands (subband_of j)) e) estimates.old }
{
    change_learning(estimates, lessons, |s, _, erle| {
        moved_erle(erle, lessons.subbands[s], limits, s)
    });
}

#[tactic(auto, unfolding(crate::specs::Factors::factor_moved))]
fn moved_factor(factor: f32, lesson: Lesson, updates: u32, estimate: f32, reference: f32) -> f32
    ensures { result ≡ factor_moved (lesson_in lesson).updated updates estimate reference factor }
{
    if lesson.ratio.is_some() & (updates > MIN_UPDATES_FOR_CORRECTION) & (reference > 0.0) {
        moved(factor, estimate / reference, 0.1)
    } else {
        factor
    }
}

// The factor of each subband's least active section.
pub fn move_factors(
    factors: &mut [f32; 48],
    estimates: &[f32; 48],
    references: &[f32; 6],
    updates: &[u32; 6],
    lessons: &Lessons,
)
    ensures { factors.new ≡ where_learning (λ s. (lesson_at lessons.now.subbands s).section) (λ j f. factor_moved (lesson_at lessons.now.subbands (subband_of j)).updated (get_or updates.now (subband_of j) 0) (get_or estimates.now j nan) (get_or references.now (subband_of j) nan) f) factors.old }
{
    change_learning(factors, lessons, |s, j, factor| {
        moved_factor(
            factor,
            lessons.subbands[s],
            updates[s],
            estimates[j],
            references[s],
        )
    });
}
