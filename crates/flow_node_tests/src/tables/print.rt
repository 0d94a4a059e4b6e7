pub const PRINT: &str = r"
# What a Print prints.

node print int
in -9223372036854775808 .
prints -9223372036854775808
ends

node print int
in 9223372036854775807 .
prints 9223372036854775807
ends

node print int
in -170141183460469231731687303715884105728 .
prints -170141183460469231731687303715884105728
ends

node print int
in 170141183460469231731687303715884105727 .
prints 170141183460469231731687303715884105727
ends

node print bool
in T .
prints true
ends

node print bool
in F .
prints false
ends

# Pairs.

node print pair int bool
in 1 .
in F .
prints (1,false)
ends

node print pair pair int int pair int int
in 1 .
in 2 .
in 3 .
in 4 .
prints ((1,2),(3,4))
ends

node print pair int pair int int
in 1 .
in 2 .
in 3 .
prints (1,(2,3))
ends

# Vectors.

node print vec int
in [1] .
prints [1]
ends

node print vec int
in [] .
prints []
ends

node print seq vec int
in F F T .
in [1] [] .
prints {[1],[]}
ends

# Sequences.

node print seq int
in T .
in .
prints {}
ends

node print seq int
in F F F T .
in 1 -2 3 .
prints {1,-2,3}
ends

node print seq seq int
in F F F T .
in F F T T F T .
in 1 2 3 .
prints {{1,2},{},{3}}
ends

node print pair int seq pair int bool
in 5 .
in F F T .
in 1 2 .
in T F .
prints (5,{(1,true),(2,false)})
ends

node print seq pair seq int seq int
in F F T .
in F T T .
in 1 .
in T F F T .
in 2 3 .
prints {({1},{}),({},{2,3})}
ends

# Wrong items: what was printed before stays.

node print int
in T
prints
faults Shape 7

node print int
in .
prints
faults Shape 7

node print int
in 1 2
prints 1
faults Shape 7

node print vec bool
in [1]
prints
faults Shape 7

node print seq int
in F .
in 1
prints {1
faults Shape 7

node print seq int
in F T .
in 1 2
prints {1}
faults Shape 7

node print pair int int
in 1 .
in .
prints (1
faults Shape 7
";
