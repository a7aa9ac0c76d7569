//! Values of fields, and what a slow reader in another language reads of them.

// A reader, the value of the field, and what is read of it.
const ROWS: &str = r#"text|null|-
text|""|
text|"a"|a
text|1|G2 count
name|""|-
name|"a"|a
name|[]|G2 count
required_name|""|G1 count
required_name|"a\u0062"|ab
required_name|null|G1 count
required_name|true|G2 count
flag_or|null|true
flag_or|true|true
flag_or|"false"|false
flag_or|"yes"|G2 count
flag_or|0|G2 count
number|null|-
number|-2.5|-5/2
number|"1"|G2 count
number|1e18|G4 count
number|inf|G2 count
number_or|null|15
number_or|-3|-3
required_amount|null|G1 count
required_amount|-0|0
required_amount|-1e-15|G7 count
required_amount|1e-400|0
amount_or|null|1
amount_or|-1|G7 count
amount_or|0.1|1/10
tenth|25|5/2
tenth|999999999999999999|G4 count
tenth|999999999999999|999999999999999/10
tenth|null|-
required_positive|0|G7 count
required_positive|1e-15|1/1000000000000000
required_positive|null|G1 count
positive_or|null|1/2
positive_or|1e-17|G7 count
positive_or|3|3
whole_or|65535|65535
whole_or|65536|G7 count
whole_or|1.5|G7 count
whole_or|-1|G7 count
whole_or|null|0
whole_or|3.0|3
hundredths|0.129|12
hundredths|-0.129|-12
hundredths|1000000|100000000
hundredths|-1000000.001|G7 count
hundredths|null|0
hundredths|[]|G2 count
energy_or|"4MJ"|4000000
energy_or|"1W"|G5 count
energy_or|5|G2 count
energy_or|null|1000
energy_or|"inf"|G5 count
power|"75kW"|75000
power|"1J"|60
power|null|-
power|"07W"|G5 count
thirtieth|"75kW"|2500
thirtieth|"999999999999999999W"|G5 count
thirtieth|"999999YJ"|1999998000000000000000000000000
thirtieth|null|G1 count
object|null|-
object|[]|-
object|{"speed":2}|2
object|{"speed":"x"}|G2 effect.speed
object|[1]|G2 count
required_object|null|G1 count
required_object|{}|-
required_object|false|G2 count
object_or_empty|null|-
object_or_empty|{"speed":-1}|-1
object_or_empty|5|G2 count
list|null|-
list|{}|0
list|[1,2]|2
list|{"a":1}|G2 count
list|"a"|G2 count
required_short_list|[[]]|1
required_short_list|null|G1 count
short_list_or_empty|null|0
short_list_or_empty|[]|0
short_list_or_empty|7|G2 count
names|["a","","b"]|a,b,
names|null|
names|["a",1]|G2 count
names|{}|
names|"a"|G2 count
categories|["b","a","","b"]|0,1,0,
categories|[null]|G2 count
categories|null|G1 count
categories|[]|"#;

/// The rows, hidden from the proofs, which need not know them.
pub fn rows() -> &'static str {
    ROWS
}
