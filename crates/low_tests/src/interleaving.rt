use sub_block::{Code, cell_at};

// Returns whether the column permutation of `code` begins with `columns`, for one row.
fn begins(code: Code, columns: [usize; 6]) -> bool {
    for m in 0..6_usize {
        if cell_at(code, 1, m) != columns[m] {
            return false;
        }
    }
    true
}

// Returns whether the column permutation of `code` has column `middle` at index 16 and column `end` at index 31, for
// one row.
fn goes_on(code: Code, middle: usize, end: usize) -> bool {
    cell_at(code, 1, 16) == middle && cell_at(code, 1, 31) == end
}

#[test]
fn columns_of_both_codes(rt: HostRuntime) {
    assert!(rt; begins(Code::Turbo, [0, 16, 8, 24, 4, 20]));
    assert!(rt; begins(Code::Convolutional, [1, 17, 9, 25, 5, 21]));
    assert!(rt; goes_on(Code::Turbo, 1, 31));
    assert!(rt; goes_on(Code::Convolutional, 0, 30));
}

// Returns whether a matrix of three rows is read with index `foot` at the bottom of the first column, and `head` at the
// top of the next.
fn turns_to_a_column(code: Code, foot: usize, head: usize) -> bool {
    cell_at(code, 3, 2) == foot && cell_at(code, 3, 3) == head
}

#[test]
fn rows_are_read_downwards(rt: HostRuntime) {
    assert!(rt; turns_to_a_column(Code::Turbo, 64, 16));
    assert!(rt; turns_to_a_column(Code::Convolutional, 65, 17));
}
