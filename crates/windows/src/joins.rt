// The join area: the line's last m − 1 edges and its first m − 1, side by side, so that each window that crosses the
// line's end stands in it in one piece. It is a copy, made before the search: no window is read and no edge compared, so
// no look is taken.
ghost use Rattle.windows.specs.Joins.{IsJoinFilled};

// "The first 2·m − 2 bytes of the join area then hold the line's last m−1 edges and its first m−1" (document 02, ticket
// 3). Returns how many bytes of the area windows may come from: 2·m − 2. If the ring has no edge, if no window fits in the
// line, or if the area is too short, nothing is written and 0 is returned.
pub fn fill_join(line: &[u8], m: usize, join: &mut [u8]) -> usize
    ensures { IsJoinFilled line.now m join.old result join.new }
{
    let n = line.len();
    if m == 0 {
        return 0;
    }
    if n < m {
        return 0;
    }
    let ends = m - 1;
    if join.len() < ends + ends {
        return 0;
    }
    join[..ends].copy_from_slice(&line[n - ends..]);
    join[ends..ends + ends].copy_from_slice(&line[..ends]);
    ends + ends
}
