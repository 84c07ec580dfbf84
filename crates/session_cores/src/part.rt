// What the parts of a pod have in common: each writes its numbers into a key.
ghost use Rattle.std.specs.Prelude.{◌≡◌, ◌++◌, List, OnOk, ℕ};
ghost use Rattle.keys.specs.Numbers.{counted, list_numbers};

use keys::Key;
use lwp_types::{IdList, Text};
use std::alloc::AllocError;

/// A value of a pod's lists, which writes itself as its numbers.
pub(crate) trait Part {
    ghost part: { Self → List ℕ };

    fn write(&self, key: &mut Key) -> Result<(), AllocError>
        ensures { OnOk result (key.new ≡ key.old ++ part self.now) };
}

/// How many there are, and each of them.
pub(crate) fn put_list<T: Part>(key: &mut Key, items: &[T]) -> Result<(), AllocError>
    ensures { OnOk result (key.new ≡ key.old ++ list_numbers T.part items.now) }
{
    key.put(items.len() as u64)?;
    for item in items {
        item.write(key)?;
    }
    Ok(())
}

/// How many ids there are, and each of them.
pub(crate) fn put_ids(key: &mut Key, ids: &IdList) -> Result<(), AllocError>
    ensures { OnOk result (key.new ≡ key.old ++ counted ids.now) }
{
    key.put(ids.len() as u64)?;
    for i in 0..ids.len() {
        key.put(ids.get(i))?;
    }
    Ok(())
}

/// How many bytes a text has, and each of them.
pub(crate) fn put_text(key: &mut Key, text: &Text) -> Result<(), AllocError>
    ensures { OnOk result (key.new ≡ key.old ++ counted text.now) }
{
    key.put(text.len() as u64)?;
    let (lead, rest) = text.parts();
    key.put_each(lead)?;
    key.put_each(rest)
}
