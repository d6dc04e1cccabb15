ghost use Rattle.std.specs.Prelude.{◌≡◌, map, OnOk, IfOk, IfSome};
ghost use Rattle.std.specs.Option.{option_map};
ghost use Rattle.serde_json.specs.Data.{no_members, object};
ghost use Rattle.serde_json.specs.View.{view};
ghost use Rattle.vk_form.specs.Shape.{number, unit, hash, text, bytes, four_units, list, struct};
ghost use Rattle.json_fold.specs.Written.{written, with_member, with_optional, IsInRange, AreInRange};

use crate::digits::hash_text;
use crate::json::Json;
use base64::engine::general_purpose::STANDARD;
use foz_words::{Name, NoMemory, Row, Unit};
use serde_json::{Map, Value};
use std::alloc::Global;

/// The members of an object that is written.
#[derive(Drop)]
pub struct ObjectWriter {
    alloc: Global,
    map: Map<String, Value>,
}

impl ObjectWriter {
    ghost use Rattle.json_fold.specs.Writer.{members};

    pub fn new(alloc: Global) -> ObjectWriter
        ensures { members result ≡ no_members }
    {
        ObjectWriter {
            alloc,
            map: Map::new(alloc),
        }
    }

    pub fn into_value(self) -> Value
        ensures { view result ≡ object (members self) }
    {
        Value::from(self.map)
    }

    #[tactic(auto, unfolding(crate::specs::Written::with_member))]
    fn member(&mut self, name: &str, value: Value) -> Result<(), NoMemory>
        ensures { OnOk result (members self.new ≡ with_member name.now (view value) (members self.old)) }
    {
        serde_json::put(&mut self.map, self.alloc, name, value)?;
        Ok(())
    }

    pub fn number(&mut self, name: &str, n: u32) -> Result<(), NoMemory>
        ensures written { OnOk result (members self.new ≡ with_member name.now (written number n) (members self.old)) }
        ensures in_range { IsInRange number n }
    {
        self.member(name, Value::from(n))
    }

    /// A number that may be wider than 32 bits.
    pub fn wide_number(&mut self, name: &str, n: u64) -> Result<(), NoMemory>
        ensures { OnOk result (members self.new ≡ with_member name.now (written number n) (members self.old)) }
    {
        self.member(name, Value::from(n))
    }

    /// Any value.
    pub fn value(&mut self, name: &str, value: Value) -> Result<(), NoMemory>
        ensures { OnOk result (members self.new ≡ with_member name.now (view value) (members self.old)) }
    {
        self.member(name, value)
    }

    pub fn unit(&mut self, name: &str, u: Unit) -> Result<(), NoMemory>
        ensures { OnOk result (members self.new ≡ with_member name.now (written unit u) (members self.old)) }
    {
        self.member(name, Value::from(u.get()))
    }

    pub fn hash(&mut self, name: &str, h: u64) -> Result<(), NoMemory>
        ensures written { OnOk result (members self.new ≡ with_member name.now (written hash h) (members self.old)) }
        ensures in_range { IsInRange hash h }
    {
        let value = hash_value(self.alloc, h)?;
        self.member(name, value)
    }

    pub fn text(&mut self, name: &str, content: &Name) -> Result<(), NoMemory>
        ensures { OnOk result (members self.new ≡ with_member name.now (written text content.now) (members self.old)) }
    {
        let value = Value::try_from_str(self.alloc, content.as_str())?;
        self.member(name, value)
    }

    pub fn bytes(&mut self, name: &str, content: &Row<u8>) -> Result<(), NoMemory>
        ensures written { OnOk result (members self.new ≡ with_member name.now (written bytes content.now) (members self.old)) }
        ensures in_range { IsInRange bytes content.now }
    {
        self.encoded(name, content.as_slice())
    }

    fn encoded(&mut self, name: &str, content: &[u8]) -> Result<(), NoMemory>
        ensures written { OnOk result (members self.new ≡ with_member name.now (written bytes content.now) (members self.old)) }
        ensures in_range { IsInRange bytes content.now }
    {
        let text = STANDARD.encode(self.alloc, content)?;
        self.member(name, Value::from(text))
    }

    pub fn numbers(&mut self, name: &str, items: &Row<u32>) -> Result<(), NoMemory>
        ensures written { OnOk result (members self.new ≡ with_member name.now (written (list number) items.now) (members self.old)) }
        ensures in_range { OnOk result (IsInRange (list number) items.now) }
    {
        let mut values = Vec::new(self.alloc);
        for n in items.as_slice() {
            values.push(number_value(*n))?;
        }
        self.member(name, Value::from(values))
    }

    pub fn hashes(&mut self, name: &str, items: &Row<u64>) -> Result<(), NoMemory>
        ensures written { OnOk result (members self.new ≡ with_member name.now (written (list hash) items.now) (members self.old)) }
        ensures in_range { OnOk result (IsInRange (list hash) items.now) }
    {
        let mut values = Vec::new(self.alloc);
        for h in items.as_slice() {
            values.push(hash_value(self.alloc, *h)?)?;
        }
        self.member(name, Value::from(values))
    }

    pub fn four_units(
        &mut self,
        name: &str,
        a: Unit,
        b: Unit,
        c: Unit,
        d: Unit,
    ) -> Result<(), NoMemory>
        ensures { OnOk result (members self.new ≡ with_member name.now (written four_units (a, (b, (c, d)))) (members self.old)) }
    {
        let mut values = Vec::new(self.alloc);
        values.push(Value::from(a.get()))?;
        values.push(Value::from(b.get()))?;
        values.push(Value::from(c.get()))?;
        values.push(Value::from(d.get()))?;
        self.member(name, Value::from(values))
    }

    pub fn structures<Crate, S: Json<Crate>>(
        &mut self,
        name: &str,
        items: &Row<S>,
    ) -> Result<(), NoMemory>
        ensures written { OnOk result (members self.new ≡ with_member name.now
            (written (list (struct S.fields)) (map S.plain items.now)) (members self.old)) }
        ensures in_range { OnOk result (IsInRange (list (struct S.fields)) (map S.plain items.now)) }
    {
        let mut values = Vec::new(self.alloc);
        for item in items.as_slice() {
            values.push(object_of(self.alloc, item)?)?;
        }
        self.member(name, Value::from(values))
    }

    /// Nothing is written where there is none.
    #[tactic(auto, unfolding(crate::specs::Written::with_optional))]
    pub fn optional<Crate, S: Json<Crate>>(
        &mut self,
        name: &str,
        item: &Option<S>,
    ) -> Result<(), NoMemory>
        ensures written { OnOk result (members self.new ≡ with_optional name.now
            (written (struct S.fields)) (option_map S.plain item.now) (members self.old)) }
        ensures in_range { OnOk result (IfSome (option_map S.plain item.now) (AreInRange S.fields)) }
    {
        match item {
            None => Ok(()),
            Some(item) => {
                let value = item.to_json(self.alloc)?;
                self.member(name, value)
            }
        }
    }

    pub fn structure<Crate, S: Json<Crate>>(&mut self, name: &str, item: &S) -> Result<(), NoMemory>
        ensures written { OnOk result (members self.new ≡ with_member name.now
            (written (struct S.fields) (S.plain item.now)) (members self.old)) }
        ensures in_range { OnOk result (AreInRange S.fields (S.plain item.now)) }
    {
        let value = item.to_json(self.alloc)?;
        self.member(name, value)
    }
}

fn number_value(n: u32) -> Value
    ensures written { view result ≡ written number n }
    ensures in_range { IsInRange number n }
{
    Value::from(n)
}

fn hash_value(alloc: Global, h: u64) -> Result<Value, NoMemory>
    ensures written { IfOk result (λ v. view v ≡ written hash h) }
    ensures in_range { IsInRange hash h }
{
    Ok(Value::from(hash_text(alloc, h)?))
}

/// The object of a structure, with no more than a list of them asks for.
fn object_of<Crate, S: Json<Crate>>(alloc: Global, item: &S) -> Result<Value, NoMemory>
    ensures written { IfOk result (λ v. view v ≡ written (struct S.fields) (S.plain item.now)) }
    ensures in_range { OnOk result (AreInRange S.fields (S.plain item.now)) }
{
    item.to_json(alloc)
}
