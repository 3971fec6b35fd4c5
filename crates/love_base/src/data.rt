ghost use Rattle.std.specs.Prelude.{◌≡◌, ◌+◌, ◌≤◌, ◌↔◌, length, IsSome, IfSome, IfOk};
ghost use Rattle.std.specs.Option.{option_copied};
ghost use Rattle.love_base.specs.Data.{part};

use crate::{Memory, Text};
use std::alloc::Global;
use std::marker::Model;
use std::sync::Arc;

/// Bytes that never change, with the name of the file that they came from, where there is one (LÖVE
/// wiki, `Data`).
///
/// Shares and views stand on one copy of the bytes, in any threads, which goes with the last of
/// them.
#[derive(Debug, Drop)]
pub struct Data {
    whole: Arc<Whole>,
    offset: usize,
    size: usize,
    is_whole: bool,
}

#[derive(Debug, Drop)]
struct Whole {
    bytes: Vec<u8>,
    name: Option<Text>,
}

impl Model for Data {
    ghost use Rattle.std.specs.Prelude.{◌+◌, ◌≤◌, length, None, slice_range, if◌then◌else◌};
    ghost use Rattle.std.specs.Arc.{arc_value};
    ghost use Rattle.love_base.specs.Data.{Contents};

    ghost Value = { Contents };

    ghost view = { λ d. record {
      bytes = slice_range (arc_value d.whole).bytes.items d.offset (d.offset + d.size);
      name = if d.is_whole then (arc_value d.whole).name else None;
    } };

    ghost invariant = { λ d. d.offset + d.size ≤ length (arc_value d.whole).bytes.items };
}

impl Data {
    /// Data of these bytes, which are copied, under this name.
    ///
    /// # Errors
    ///
    /// [`Memory`] where there is no room for the copy.
    pub fn new(alloc: Global, bytes: &[u8], name: Option<Text>) -> Result<Data, Memory>
        ensures bytes { IfOk result (λ made. made.bytes ≡ bytes.now) }
        ensures name { IfOk result (λ made. made.name ≡ name) }
    {
        let bytes = Vec::from_slice(alloc, bytes)?;
        let size = bytes.len();
        let whole = Arc::new(alloc, Whole { bytes, name })?;
        Ok(Data {
            whole,
            offset: 0,
            size,
            is_whole: true,
        })
    }

    /// How many bytes there are, in constant time.
    pub fn size(&self) -> usize
        ensures { result ≡ length self.now.bytes }
    {
        self.size
    }

    /// The bytes, in constant time.
    pub fn bytes(&self) -> &[u8]
        ensures { result.now ≡ self.now.bytes }
    {
        &self.whole.bytes[self.offset..self.offset + self.size]
    }

    /// The name of the file that the bytes came from; `None` where they came from no file, and of a
    /// view.
    pub fn name(&self) -> Option<&Text>
        ensures { option_copied result ≡ self.now.name }
    {
        if self.is_whole {
            self.whole.name.as_ref()
        } else {
            None
        }
    }

    /// Equal Data on the same bytes, in constant time.
    ///
    /// # Errors
    ///
    /// [`Memory`] where the bytes have no room for one more owner.
    pub fn share(&self) -> Result<Data, Memory>
        ensures { IfOk result (λ equal. equal ≡ self.now) }
    {
        Ok(Data {
            whole: Arc::try_clone(&self.whole)?,
            offset: self.offset,
            size: self.size,
            is_whole: self.is_whole,
        })
    }

    /// The `size` bytes from `offset` on, counted from 0, as Data without a name on the same bytes,
    /// in constant time (LÖVE wiki, `love.data.newDataView`); `None` where they don't lie within.
    ///
    /// # Errors
    ///
    /// [`Memory`] where the bytes have no room for one more owner.
    pub fn view(&self, offset: usize, size: usize) -> Result<Option<Data>, Memory>
        ensures within { IfOk result (λ view.
            IsSome view ↔ (offset + size ≤ length self.now.bytes)) }
        ensures part { IfOk result (λ view.
            IfSome view (λ made. made ≡ part self.now offset size)) }
    {
        if offset > self.size || size > self.size - offset {
            return Ok(None);
        }
        Ok(Some(Data {
            whole: Arc::try_clone(&self.whole)?,
            offset: self.offset + offset,
            size,
            is_whole: false,
        }))
    }
}
