// The lower ends of a box: those of its two halves taken together.
ghost use Rattle.std.specs.Prelude.{◌≡◌, ℕ, ◌<◌, ◌≤◌, [], ◌∷◌, map, length, slice_index};
ghost use Rattle.boxes.specs.Scales.{scale, ScalesJoined, HalvesJoined};

use crate::limits::EndGrid;
use crate::rising_ends::RisingEnds;
use crate::scales::Scales;

impl Scales {
    // The one lower end in each key of a leaf box.
    pub(crate) fn one(low: &[u32; 4]) -> Scales
        ensures { (i : ℕ) → i < 4 → scale result i ≡ slice_index low.now i ∷ [] }
    {
        Scales {
            ends: low.map(RisingEnds::one),
        }
    }

    // With the lower ends of another in the first keys; none where there is no room for them.
    fn joined(&self, other: &Scales, keys: usize) -> Option<Scales>
        requires { keys ≤ 4 }
        ensures { ScalesJoined keys self.now other.now result }
    {
        let mut ends = self.ends;
        for (key, scale) in ends[..keys].iter_mut().enumerate() {
            *scale = scale.joined(&other.ends[key])?;
        }
        Some(Scales { ends })
    }

    // How many lower ends there are in each key.
    pub(crate) fn counts(&self) -> [usize; 4]
        ensures { (i : ℕ) → i < 4 → slice_index result i ≡ length (scale self.now i) }
    {
        self.ends.map(|ends| ends.count)
    }
}

// The lower ends of a box from those of its halves, where it keeps the limits of a directory box.
pub(crate) fn halves_joined(
    lower: &Option<Scales>,
    upper: &Option<Scales>,
    keys: usize,
) -> Option<Scales>
    requires { keys ≤ 4 }
    ensures { HalvesJoined keys lower.now upper.now result }
{
    let scales = lower.as_ref()?.joined(upper.as_ref()?, keys)?;
    let grid = EndGrid::of(&scales.counts()[..keys]);
    grid.keeps_limits(60, 80).then_some(scales)
}
