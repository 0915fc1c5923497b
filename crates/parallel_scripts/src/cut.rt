//! Scripts in pieces.
ghost use Rattle.std.specs.Prelude.{◌≡◌, ◌++◌, [], IfOk, OnOk};
ghost use Rattle.script_pieces.specs.Cutter.{asked};
ghost use Rattle.parallel_scripts.specs.Cut.{AreCut, HasPushed, IsCut, parts_of, texts_in, texts_of};

use crate::part::Part;
use script_pieces::{Cutter, Request};
use std::alloc::{AllocError, Global};

/// A script: the texts of its calls, and what its pieces are, but for those that ask for nothing.
#[derive(Drop)]
struct CutScript {
    texts: Vec<Vec<u8>>,
    parts: Vec<Part>,
}

/// Scripts as they are run: of each the texts of its calls, and what its pieces are.
#[derive(Drop)]
pub(crate) struct CutScripts {
    pub(crate) texts: Vec<Vec<Vec<u8>>>,
    pub(crate) parts: Vec<Vec<Part>>,
}

impl CutScripts {
    /// No script.
    fn new(alloc: Global) -> CutScripts
        ensures { (result.texts.items ≡ []) × (result.parts.items ≡ []) }
    {
        CutScripts {
            texts: Vec::new(alloc),
            parts: Vec::new(alloc),
        }
    }

    /// One script more, of these bytes. Refuses for want of memory alone.
    fn push(&mut self, alloc: Global, bytes: &[u8]) -> Result<(), AllocError>
        ensures { OnOk result (HasPushed bytes.now self.old.texts.items self.new.texts.items self.old.parts.items self.new.parts.items) }
    {
        let CutScript { texts, parts } = cut(alloc, bytes)?;
        self.texts.push(texts)?;
        self.parts.push(parts)?;
        Ok(())
    }
}

impl CutScript {
    /// Puts a piece behind the others, with the text of its call where it is one.
    fn put(&mut self, alloc: Global, request: Request, text: &[u8]) -> Result<(), AllocError>
        ensures parts { OnOk result (self.new.parts.items ≡ self.old.parts.items ++ parts_of (asked request text.now)) }
        ensures texts { OnOk result (texts_in self.new.texts.items ≡ texts_in self.old.texts.items ++ texts_of (asked request text.now)) }
    {
        match request {
            Request::Nothing => Ok(()),
            Request::Calls(None) => {
                let mut kept = Vec::new(alloc);
                kept.extend_from_slice(text)?;
                self.texts.push(kept)?;
                self.parts.push(Part::Calls)?;
                Ok(())
            }
            _ => {
                self.parts.push(Part::Wrong)?;
                Ok(())
            }
        }
    }
}

/// The scripts of these bytes. Refuses for want of memory alone.
pub(crate) fn cut_all(alloc: Global, scripts: &[Vec<u8>]) -> Result<CutScripts, AllocError>
    ensures { IfOk result (λ cut. AreCut scripts.now cut.texts.items cut.parts.items) }
{
    let mut all = CutScripts::new(alloc);
    for bytes in scripts {
        all.push(alloc, bytes.as_slice())?;
    }
    Ok(all)
}

/// The script of these bytes. Refuses for want of memory alone.
fn cut(alloc: Global, bytes: &[u8]) -> Result<CutScript, AllocError>
    ensures { IfOk result (λ script. IsCut bytes.now (texts_in script.texts.items) script.parts.items) }
{
    let mut cutter = Cutter::new(alloc)?;
    let mut script = CutScript {
        texts: Vec::new(alloc),
        parts: Vec::new(alloc),
    };
    for byte in bytes {
        if let Some(request) = cutter.take(*byte) {
            script.put(alloc, request, cutter.text())?;
            cutter.clear();
        }
    }
    let last = cutter.finish();
    script.put(alloc, last, cutter.text())?;
    Ok(script)
}
