// A column of a matrix, read from the tables of `transform_1d`.
ghost use Rattle.std.specs.Prelude.{◌≡◌, ◌/◌, ◌%◌, ◌<◌, T};
ghost use Rattle.integers.specs.Lists.{tabulate};
ghost use Rattle.h265.specs.Matrix.{trans_matrix32, trans_matrix, dst_matrix};
ghost use Rattle.h265.specs.Range.{is_size};
ghost use Rattle.contributions.specs.Work.{ColumnOf};

// Kept: columns of the largest size with n beside them, here and in products.rt: there is no heap, and n stands once for both columns and the block.
// Kept: a size as a number with its clause, here and in products.rt: as in `refusal`.
// Kept: columns of their own: edit_tables makes a whole matrix, in 8 KB of stack, where a sample needs two columns of 64 bytes.
// Column m of the n-point DCT's matrix, whose row k is row k × 32 / n of the 32-point one.
// Kept: the table is lent: it is 2 KB, and both columns of a sample are read from one copy.
pub(crate) fn dct_column(t: &[i16; 1024], n: usize, m: usize) -> [i16; 32]
    requires { (t.now ≡ tabulate 1024 (λ i. trans_matrix32 (i / 32) (i % 32))) × T (is_size n) × (m < n) }
    ensures { ColumnOf (trans_matrix n) n m result }
{
    let stride = 1024 / n;
    let mut r = [0i16; 32];
    for k in 0..n {
        r[k] = t[k * stride + m];
    }
    r
}

// Column m of the DST's matrix.
// Kept: a loop of its own, since the table has another length; one loop for both would take a slice with the step from row to row, and say what stands at each place of it.
pub(crate) fn dst_column(t: &[i16; 16], m: usize) -> [i16; 32]
    requires { (t.now ≡ tabulate 16 (λ i. dst_matrix (i / 4) (i % 4))) × (m < 4) }
    ensures { ColumnOf dst_matrix 4 m result }
{
    let mut r = [0i16; 32];
    for k in 0..4 {
        r[k] = t[4 * k + m];
    }
    r
}
