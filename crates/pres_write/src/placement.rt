//! Drafts at their paths.

ghost use Rattle.std.specs.Prelude.{◌≡◌, ◌+◌, ◌<◌, length, IfOk, MatchResult};
ghost use Rattle.pres_tree.specs.Paths.{IsPath, max_depth};
ghost use Rattle.pres_tree.specs.Rows.{Fits, depth_of};

use crate::draft::Draft;
use pres_tree::{MAX_DEPTH, Path, TreeFault};
use std::alloc::{AllocError, Global};
use std::marker::Model;

/// A draft and the path that it is to stand at, where no leaf of it is more than `MAX_DEPTH`
/// keys from the root. Contracts see the pair of both.
pub struct Placement {
    path: Path,
    draft: Draft,
}

// Written out so that dropping a placement is one step of a proof, in the crates above too.
impl Drop for Placement {
    fn drop(self) {
        let Placement { path: _, draft: _ } = self;
    }
}

impl Model for Placement {
    ghost use Rattle.pres_tree.specs.Paths.{Path};
    ghost use Rattle.pres_tree.specs.Rows.{Rows, Fits};
    ghost use Rattle.pres_write.specs.declared.draft.DraftLeaf.{DraftLeaf};

    ghost Value = { Path × Rows DraftLeaf };

    ghost view = { λ p. (p.path, p.draft) };

    ghost invariant = { λ p. Fits p.path p.draft };
}

impl Placement {
    /// The draft at the path, refused as TooDeep where a leaf would stand below `MAX_DEPTH`
    /// keys.
    pub fn new(path: Path, draft: Draft) -> Result<Placement, TreeFault>
        ensures { MatchResult result
            (λ p. p ≡ (path, draft))
            (λ e. (e ≡ TreeFault.TooDeep) × (max_depth < length path + depth_of draft)) }
    {
        if path.len() + draft.depth() > MAX_DEPTH {
            drop(draft);
            return Err(TreeFault::TooDeep);
        }
        Ok(Placement { path, draft })
    }

    /// The same where it is known to fit.
    pub fn fitting(path: Path, draft: Draft) -> Placement
        requires { Fits path draft }
        ensures { result ≡ (path, draft) }
    {
        Placement { path, draft }
    }

    /// The path.
    pub fn path(&self) -> &Path
        ensures path { result.now ≡ self.now.0 }
        ensures keys { IsPath self.now.0 }
        ensures fits { Fits self.now.0 self.now.1 }
    {
        // it ensures that the path is one
        let _ = self.path.len();
        &self.path
    }

    /// The draft.
    pub fn draft(&self) -> &Draft
        ensures { result.now ≡ self.now.1 }
    {
        &self.draft
    }

    /// The path and the draft, which are moved.
    pub fn into_parts(self) -> (Path, Draft)
        ensures parts { result ≡ self }
        ensures fits { Fits result.0 result.1 }
    {
        let Placement { path, draft } = self;
        (path, draft)
    }

    /// An equal placement.
    pub fn copy(&self, alloc: Global) -> Result<Placement, AllocError>
        ensures { IfOk result (λ p. p ≡ self.now) }
    {
        Ok(Placement {
            path: self.path.copy(alloc)?,
            draft: self.draft.copy(alloc)?,
        })
    }
}
