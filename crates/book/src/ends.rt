// The ends of a repeat, one after another along the links.
ghost use Rattle.std.specs.Prelude.{◌≡◌};
ghost use Rattle.std.specs.Iterator.{YieldsFirst, item_count};
ghost use Rattle.book.specs.Linking.{next_along};
ghost use Rattle.book.specs.Ends.{left};

// Leads from each end to the next of its group.
#[derive(Drop)]
pub(crate) struct Ends<'a> {
    pub(crate) later: &'a [u32],
    pub(crate) next: Option<u32>,
}

impl<'a> Iterator for Ends<'a> {
    type Item = u32;

    ghost next_gives = { YieldsFirst left };

    ghost remaining = { item_count left };

    fn next(&mut self) -> Option<u32> {
        let end = self.next?;
        self.next = end_after(self.later, end);
        Some(end)
    }
}

// The end to which the link leads. A link of 0 leads nowhere, since 0 comes after no position.
fn end_after(later: &[u32], end: u32) -> Option<u32>
    ensures { result ≡ next_along later.now end }
{
    later.get(end as usize).copied().filter(|next| *next > end)
}
