// The two parts that windows come from, and a window of them. The search gets all line edges from here; only `fill_join`
// copies some out of the line itself. A window that crosses the line's end comes from the join area, where the line's last
// edges and its first ones stand side by side; every other from the line.
ghost use Rattle.windows.specs.Windows.{parts_of, IsWindow, IsWholeLength, IsPart};

use answers::LinePlace;

// The line and its join area, lent for one common lifetime. The join area begins with the line's edge at place n − m + 1;
// a line that is searched open has an empty one.
#[derive(Clone, Copy)]
pub struct LineParts<'a> {
    pub line: &'a [u8],
    pub join: &'a [u8],
}

impl<'a> LineParts<'a> {
    // "Windows that cross come from a lent join area, the others from the line itself, and the caller gets the part that
    // applies" (document 02, ticket 3). Nearly every window lies in the line, so that is tested before the join area is
    // looked at. The answer is no Option: it is the part that applies, and where no window fits that part is empty, so that
    // a reader takes no look at it.
    pub fn window(self, start: LinePlace, m: usize) -> &'a [u8]
        ensures { IsWindow (parts_of self.entry) start.0 m result.now }
    {
        let i = start.0;
        let n = self.line.len();
        if n <= i {
            return &self.line[..0];
        }
        let rest = n - i;
        if rest < m {
            if n < m {
                return &self.line[..0];
            }
            return part(self.join, m - rest - 1, m);
        }
        &self.line[i..i + m]
    }

    // The number of edges that windows are taken from: the line's n, and the m − 1 that the join area holds behind the
    // line's last m − 1, or as many of them as it holds. The line's alone for m = 0, or if no window fits in it.
    pub fn whole_length(self, m: usize) -> usize
        ensures { IsWholeLength m (parts_of self.entry) result }
    {
        let n = self.line.len();
        if m == 0 || n < m {
            return n;
        }
        let ends = m - 1;
        let behind = self.join.len().saturating_sub(ends);
        n + ends.min(behind)
    }
}

// The m edges from place i on. If they do not fit there, the part is empty. Nothing is added to i, so nothing overflows.
fn part(edges: &[u8], i: usize, m: usize) -> &[u8]
    ensures { IsPart edges.now i m result.now }
{
    let Some(rest) = edges.get(i..) else {
        return &edges[..0];
    };
    let Some(part) = rest.get(..m) else {
        return &edges[..0];
    };
    part
}
