//! How many bytes of a class stand first.
ghost use Rattle.std.specs.Prelude.{◌≡◌, ◌≤◌, length};
ghost use Rattle.stat_defs.specs.Names as names;
ghost use Rattle.event_script.specs.Lanes.{IsStretchOf};
ghost use Rattle.event_script.specs.Lanes.{IsFront};

use crate::lanes::{LANES, label_run, name_run};
use stat_defs::{is_label_byte, is_name_byte};

fn is_printable_byte(b: u8) -> bool
    ensures { result ≡ names.is_printable_byte b }
{
    b' ' <= b && b <= b'~'
}

// A front of label bytes, up to the first other byte or close to the end of the text.
fn label_front(text: &[u8]) -> usize
    ensures { IsFront names.is_label_byte text.now result }
{
    let mut end = 0;
    while text.len() - end >= LANES {
        let run = label_run(text, end);
        end += run;
        if run < LANES {
            return end;
        }
    }
    end
}

// How many label bytes stand first.
#[inline(always)]
pub fn label_length(text: &[u8]) -> usize
    ensures { IsStretchOf names.is_label_byte text.now result }
{
    let mut end = label_front(text);
    while end < text.len() && is_label_byte(text[end]) {
        end += 1;
    }
    end
}

// A front of name bytes, up to the first other byte or close to the end of the text.
fn name_front(text: &[u8]) -> usize
    ensures { IsFront names.is_name_byte text.now result }
{
    let mut end = 0;
    while text.len() - end >= LANES {
        let run = name_run(text, end);
        end += run;
        if run < LANES {
            return end;
        }
    }
    end
}

// How many name bytes stand first.
#[inline(always)]
pub fn name_length(text: &[u8]) -> usize
    ensures { IsStretchOf names.is_name_byte text.now result }
{
    let mut end = name_front(text);
    while end < text.len() && is_name_byte(text[end]) {
        end += 1;
    }
    end
}

// How many bytes of a readout's text stand first.
pub fn text_length(text: &[u8]) -> usize
    ensures { IsStretchOf names.is_printable_byte text.now result }
{
    for (at, b) in text.iter().enumerate() {
        if !is_printable_byte(*b) {
            return at;
        }
    }
    text.len()
}
