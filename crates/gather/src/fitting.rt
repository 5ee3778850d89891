// A block that can be gathered.
ghost use Rattle.std.specs.Prelude.{◌≤◌, length};
ghost use Rattle.gather.specs.Model.{room};

use sending::Block;

// A block of at most four parts whose body is no longer than such a part can be, and the frame at which it was read.
#[derive(Clone, Copy)]
pub(crate) struct Fitting<'a> {
    pub(crate) block: Block<'a>,
    pub(crate) frame: u64,
    ghost part: { block.part ≤ 3 },
    ghost few: { block.last ≤ 3 },
    ghost fits: { length block.body.now ≤ room block.part },
}
