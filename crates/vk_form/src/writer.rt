ghost use Rattle.std.specs.Prelude.{◌≡◌, ◌^◌, ◌<◌, ◌∷◌, [], length, map, Some, None, IfOk, IfSome};
ghost use Rattle.std.specs.Option.{option_map};
ghost use Rattle.state_hash.specs.Mixing.{start};
ghost use Rattle.vk_form.specs.Shape.{number, unit, hash, text, bytes, four_units, list, struct};
ghost use Rattle.vk_form.specs.Words.{words, field_words, flagged};
ghost use Rattle.vk_form.specs.Ordinary.{IsOrdinary, AreOrdinary};
ghost use Rattle.vk_form.specs.Writes.{Writes, hashed, kept};

use crate::structure::Structure;
use foz_words::{Name, NoMemory, Row, Unit};
use state_hash::Mixer;
use std::alloc::Global;

/// Takes the words of a state, field after field: hashes them, and keeps them where that was asked for. Hashing takes no
/// memory. Where memory for a kept word is refused, the words are dropped, and `into_row` says so.
#[derive(Drop)]
pub struct WordWriter {
    mixer: Mixer,
    row: Option<Row<u32>>,
}

impl WordWriter {
    /// A writer that only hashes.
    pub fn hashing() -> WordWriter
        ensures hashed { hashed result ≡ start }
    {
        WordWriter {
            mixer: Mixer::new(),
            row: None,
        }
    }

    /// A writer that keeps the words too.
    pub fn keeping(alloc: Global) -> WordWriter
        ensures hashed { hashed result ≡ start }
        ensures kept { kept result ≡ Some [] }
    {
        WordWriter {
            mixer: Mixer::new(),
            row: Some(Row::new(alloc)),
        }
    }

    /// The hash of the words so far.
    pub fn hashed(&self) -> u64
        ensures { result ≡ hashed self.now }
    {
        self.mixer.get()
    }

    /// The kept words.
    pub fn into_row(self) -> Result<Row<u32>, NoMemory>
        ensures { IfOk result (λ row. kept self ≡ Some row) }
    {
        self.row.ok_or(NoMemory)
    }

    fn word(&mut self, word: u32)
        ensures { Writes self.old (word ∷ []) self.new }
    {
        self.mixer.word(word);
        let refused = match &mut self.row {
            Some(row) => row.push(word).is_err(),
            None => false,
        };
        if refused {
            self.row = None;
        }
    }

    pub fn number(&mut self, n: u32)
        ensures { Writes self.old (words number n) self.new }
    {
        self.word(n);
    }

    pub fn unit(&mut self, u: Unit)
        ensures { Writes self.old (words unit u) self.new }
    {
        self.word(u.get());
    }

    pub fn hash(&mut self, h: u64)
        ensures { Writes self.old (words hash h) self.new }
    {
        self.word((h % 0x1_0000_0000) as u32);
        self.word((h / 0x1_0000_0000) as u32);
    }

    pub fn four_units(&mut self, a: Unit, b: Unit, c: Unit, d: Unit)
        ensures { Writes self.old (words four_units (a, (b, (c, d)))) self.new }
    {
        self.unit(a);
        self.unit(b);
        self.unit(c);
        self.unit(d);
    }

    fn counted(&mut self, content: &[u8])
        requires { length content.now < 2 ^ 30 }
        ensures { Writes self.old (words bytes content.now) self.new }
    {
        self.word(content.len() as u32);
        for byte in content {
            self.word(u32::from(*byte));
        }
    }

    pub fn bytes(&mut self, content: &Row<u8>)
        requires { length content.now < 2 ^ 30 }
        ensures { Writes self.old (words bytes content.now) self.new }
    {
        self.counted(content.as_slice());
    }

    pub fn text(&mut self, content: &Name)
        requires { length content.now < 2 ^ 30 }
        ensures { Writes self.old (words text content.now) self.new }
    {
        self.counted(content.as_str().as_bytes());
    }

    pub fn numbers(&mut self, items: &Row<u32>)
        requires { length items.now < 2 ^ 30 }
        ensures { Writes self.old (words (list number) items.now) self.new }
    {
        let items = items.as_slice();
        self.word(items.len() as u32);
        for n in items {
            self.number(*n);
        }
    }

    pub fn hashes(&mut self, items: &Row<u64>)
        requires { length items.now < 2 ^ 30 }
        ensures { Writes self.old (words (list hash) items.now) self.new }
    {
        let items = items.as_slice();
        self.word(items.len() as u32);
        for h in items {
            self.hash(*h);
        }
    }

    pub fn structures<S: Structure>(&mut self, items: &Row<S>)
        requires { IsOrdinary (list (struct S.fields)) (map S.plain items.now) }
        ensures { Writes self.old (words (list (struct S.fields)) (map S.plain items.now)) self.new }
    {
        let items = items.as_slice();
        self.word(items.len() as u32);
        for item in items {
            item.put_words(self);
        }
    }

    pub fn optional<S: Structure>(&mut self, item: &Option<S>)
        requires { IfSome (option_map S.plain item.now) (AreOrdinary S.fields) }
        ensures { Writes self.old (flagged (field_words S.fields) (option_map S.plain item.now)) self.new }
    {
        match item {
            None => self.word(0),
            Some(item) => {
                self.word(1);
                item.put_words(self);
            }
        }
    }

    pub fn structure<S: Structure>(&mut self, item: &S)
        requires { AreOrdinary S.fields (S.plain item.now) }
        ensures { Writes self.old (words (struct S.fields) (S.plain item.now)) self.new }
    {
        item.put_words(self);
    }
}
