// What a twig is as a whole.
ghost use Rattle.std.specs.Prelude.{◌≡◌, ◌≤◌, length};
ghost use Rattle.pattern.specs.Twig.{shape_of};

use super::node::Mark;
use super::twig::Twig;

impl Twig {
    // Where the root may stand.
    pub fn mark(&self) -> Mark
        ensures { result ≡ (shape_of self.now).mark }
    {
        self.mark
    }

    // How many nodes there are: 1 to 16.
    pub fn len(&self) -> usize
        ensures count { result ≡ length (shape_of self.now).nodes }
        ensures some { 1 ≤ result }
        ensures few { result ≤ 16 }
    {
        self.nodes.as_slice().len()
    }
}
