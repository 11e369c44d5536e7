use crate::Same;
use gdi_kinds::{EdgeLine, Name, Pair, PropLine, Text, Value};

impl Same for Name {
    fn is_same(&self, other: &Name) -> bool {
        self.bytes() == other.bytes()
    }
}

impl Same for Text {
    fn is_same(&self, other: &Text) -> bool {
        self.bytes() == other.bytes()
    }
}

impl Same for Value {
    fn is_same(&self, other: &Value) -> bool {
        match (self, other) {
            (Value::Int(one), Value::Int(other)) => *one == *other,
            (Value::Bool(one), Value::Bool(other)) => *one == *other,
            (Value::Text(one), Value::Text(other)) => one.is_same(other),
            _ => false,
        }
    }
}

impl Same for PropLine {
    fn is_same(&self, other: &PropLine) -> bool {
        self.name.is_same(&other.name) && self.value.is_same(&other.value)
    }
}

impl Same for Pair {
    fn is_same(&self, other: &Pair) -> bool {
        self.id == other.id && self.number == other.number
    }
}

impl Same for EdgeLine {
    fn is_same(&self, other: &EdgeLine) -> bool {
        self.inward == other.inward
            && self.undirected == other.undirected
            && self.source == other.source
            && self.ordinal == other.ordinal
            && self.target == other.target
    }
}
