//! Words, and those that differ in one letter.

/// Whether a word is this text.
pub fn is(word: &[u8], text: &str) -> bool {
    word == text.as_bytes()
}

/// Whether two words differ in one letter that is another, lacking, added, or in the other place,
/// and are three letters long at least; or whether they differ in capitals alone. Hints go by it,
/// so nothing is promised of it.
pub fn is_near(left: &[u8], right: &[u8]) -> bool {
    if left == right {
        return false;
    }
    if left.eq_ignore_ascii_case(right) {
        return true;
    }
    let longer = left.len().max(right.len());
    longer >= 3 && (is_swapped(left, right) || is_changed(left, right, longer))
}

/// Whether one letter is another, lacking or added.
fn is_changed(left: &[u8], right: &[u8], longer: usize) -> bool {
    let shorter = left.len().min(right.len());
    let same = same_front(left, right).saturating_add(same_back(left, right));
    shorter.saturating_add(1) >= longer && same.saturating_add(1) >= longer
}

/// Whether two letters beside each other have changed places.
fn is_swapped(left: &[u8], right: &[u8]) -> bool {
    let front = same_front(left, right);
    let same = front.saturating_add(same_back(left, right));
    let next = front.saturating_add(1);
    left.len() == right.len()
        && same.saturating_add(2) >= left.len()
        && left.get(front) == right.get(next)
        && left.get(next) == right.get(front)
}

/// How many letters are the same from the front on.
fn same_front(left: &[u8], right: &[u8]) -> usize {
    left.iter()
        .zip(right)
        .take_while(|(one, other)| one == other)
        .count()
}

/// How many letters are the same from the back on.
fn same_back(left: &[u8], right: &[u8]) -> usize {
    left.iter()
        .rev()
        .zip(right.iter().rev())
        .take_while(|(one, other)| one == other)
        .count()
}
