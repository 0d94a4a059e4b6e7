pub const VALUES: &str = r"
# The transducers over values of a type.

# Elements of vectors.

node seq int
in [8,-9] [] .
out F F T T .
out 8 -9 .
ends

node seq pair int vec int
in [(1,[4,5]),(2,[])] .
out F F T .
out 1 2 .
out [4,5] [] .
ends

# A truth value where an integer is due, and an integer where a vector is due.

node seq int
in [1,true] .
out
out
faults Shape 7

node seq int
in 1 .
out
out
faults Shape 7

# What an index leads to.

node index pair int vec int
in [(1,[4,5]),(2,[])] .
in 0 .
out 1 .
out [4,5] .
ends

node index pair int vec int
in [(1,[4,5]),(2,[])] .
in 1 .
out 2 .
out [] .
ends

node index pair int vec int
in [(1,[4,5]),(2,[])] .
in 2 .
out
out
faults Index 7

node index pair int vec int
in [(1,[4,5]),(2,[])] .
in -1 .
out
out
faults Index 7

node index pair int vec int
in [(1,[4,5]),(2,[])] .
in T .
out
out
faults Shape 7

# A vector of other elements, before any index.

node index bool
in [(1,[4,5]),(2,[])] .
in .
out
faults Shape 7

# Vectors of elements.

node tab int
in F F T T .
in 8 -9 .
out [8,-9] [] .
ends

node tab pair int vec int
in F F T .
in 1 2 .
in [1] [] .
out [(1,[1]),(2,[])] .
ends

# A flag where an integer is due, integers where truth values are due, an end inside an element, and a type that is not
# concrete.

node tab int
in F T F .
in 1 T .
out [1]
faults Shape 7

node tab vec bool
in T F .
in [1] .
out []
faults Shape 7

node tab int
in F .
in .
out
faults Shape 7

node tab seq int
in F .
in .
in .
out
faults Shape 7

# A vector of integers where one of truth values is due: the integer behind it is not asked for.

node tab pair vec bool int
in F
in [1]
in
out
faults Shape 7

# Integers over 64 bits pass, and an index over them is beyond each vector.

node seq int
in [170141183460469231731687303715884105727] .
out F T .
out 170141183460469231731687303715884105727 .
ends

node tab int
in F T .
in 170141183460469231731687303715884105727 .
out [170141183460469231731687303715884105727] .
ends

node index int
in [170141183460469231731687303715884105727] .
in 0 .
out 170141183460469231731687303715884105727 .
ends

node index int
in [8,-9]
in 18446744073709551616
out
faults Index 7

node index int
in [8,-9]
in -170141183460469231731687303715884105728
out
faults Index 7
";
