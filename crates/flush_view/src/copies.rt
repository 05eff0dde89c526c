//! Copies of tags.
ghost use Rattle.std.specs.Prelude.{◌≡◌, IfOk};

use stat_defs::{NoMemory, Tagged};

/// A copy of what tags took of a name, and of the tags, which takes no memory.
pub fn copy_of_tagged(tagged: &Tagged) -> Result<Tagged, NoMemory>
    ensures { IfOk result (λ copy. copy ≡ tagged.now) }
{
    Ok(Tagged {
        extracted: tagged.extracted.clone()?,
        tags: tagged.tags.clone()?,
    })
}
