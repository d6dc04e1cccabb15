ghost use Rattle.std.specs.Prelude.{◌≡◌, IfOk};
ghost use Rattle.vk_form.specs.Shape.{Fields, Plains};
ghost use Rattle.vk_form.specs.Ordinary.{AreOrdinary};
ghost use Rattle.vk_form.specs.Writes.{WritesFields};

use crate::writer::WordWriter;
use foz_words::NoMemory;
use std::alloc::Global;

/// A structure of named fields.
pub trait Structure: Sized + Drop {
    // What it consists of, the plain value that it is, and the structure that a plain value is of.
    ghost fields: { Fields };

    ghost plain: { Self → Plains fields };

    ghost of_plain: { Plains fields → Self };

    /// The same structure once more.
    fn copy(&self, alloc: Global) -> Result<Self, NoMemory>
        ensures { IfOk result (λ copied. copied ≡ self.now) };

    /// Gives its words, field after field.
    fn put_words(&self, out: &mut WordWriter)
        requires { AreOrdinary fields (plain self.now) }
        ensures { WritesFields fields out.old (plain self.now) out.new };

    ghost back: { (x : Self) → of_plain (plain x) ≡ x };
}
