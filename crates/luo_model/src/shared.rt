// Threads may share a program, and hand on what is said of it.
use crate::{
    Arm, Bind, Body, Counts, Def, Entry, Fill, Item, Kind, Made, Node, Part, Proc, Program, Row,
    Shape, Site, Universe, Value, ValueArm,
};

fn shared<T: Send + Sync>() {}

fn all_are_shared() {
    shared::<Program>();
    shared::<Universe>();
    shared::<Kind>();
    shared::<Part>();
    shared::<Shape>();
    shared::<Node>();
    shared::<Def>();
    shared::<Proc>();
    shared::<Site>();
    shared::<Body>();
    shared::<Item>();
    shared::<Arm>();
    shared::<Bind>();
    shared::<Made>();
    shared::<Value>();
    shared::<ValueArm>();
    shared::<Row>();
    shared::<Fill>();
    shared::<Entry>();
    shared::<Counts<'static>>();
}
